//! Why a key line is refused.

ghost use Rattle.std.specs.Prelude.{◌≡◌, Some};
ghost use Rattle.key_text.specs.LineFault.{fault_number, fault_text};

use std::error::Error;
use std::fmt;

/// Why a line has no key. It prints as `line`, its number and its name.
#[derive(Clone, Copy, Debug, PartialEq, Eq)]
pub enum LineFault {
    /// There is no type name in its place, or no word after it.
    NoKey,
    /// The word after the type name is not base64 with padding, its unused bits zero.
    Base64,
    /// The first string of the key is not the type name.
    WordDiffers,
    /// The allocation for the key failed.
    NoMemory,
}

impl LineFault {
    /// The fault's number, 1 to 4 in the order of the variants.
    pub fn number(self) -> u8
        ensures { result ≡ fault_number self }
    {
        match self {
            LineFault::NoKey => 1,
            LineFault::Base64 => 2,
            LineFault::WordDiffers => 3,
            LineFault::NoMemory => 4,
        }
    }
}

impl fmt::Display for LineFault {
    ghost output = { λ fault. Some (fault_text fault) };

    fn fmt<W: fmt::Write>(&self, f: &mut fmt::Formatter<W>) -> fmt::Result {
        let text = match self {
            LineFault::NoKey => "line 1 NoKey",
            LineFault::Base64 => "line 2 Base64",
            LineFault::WordDiffers => "line 3 WordDiffers",
            LineFault::NoMemory => "line 4 NoMemory",
        };
        f.write_str(text)
    }
}

impl Error for LineFault {}
