//! Why a file cannot be used as a whole.

ghost use Rattle.std.specs.Prelude.{◌≡◌, Some};
ghost use Rattle.run_faults.specs.FileFault.{file_fault_number, file_fault_text};

use std::error::Error;
use std::fmt;

/// Why a file could not be used.
#[derive(Clone, Copy, Debug, PartialEq, Eq)]
pub enum FileFault {
    /// It cannot be opened.
    Open,
    /// It cannot be read.
    Read,
    /// It has more than 16,777,216 bytes.
    TooLong,
    /// The allocation for its bytes failed.
    NoMemory,
    /// It has no key.
    NoKeys,
    /// It has no certificate.
    NoCertificate,
    /// Another update of the list does not end.
    Locked,
}

impl FileFault {
    /// The fault's number, 1 to 7 in the order of the variants.
    pub fn number(self) -> u8
        ensures { result ≡ file_fault_number self }
    {
        match self {
            FileFault::Open => 1,
            FileFault::Read => 2,
            FileFault::TooLong => 3,
            FileFault::NoMemory => 4,
            FileFault::NoKeys => 5,
            FileFault::NoCertificate => 6,
            FileFault::Locked => 7,
        }
    }
}

impl fmt::Display for FileFault {
    ghost output = { λ fault. Some (file_fault_text fault) };

    fn fmt<W: fmt::Write>(&self, f: &mut fmt::Formatter<W>) -> fmt::Result {
        let text = match self {
            FileFault::Open => "file 1 Open",
            FileFault::Read => "file 2 Read",
            FileFault::TooLong => "file 3 TooLong",
            FileFault::NoMemory => "file 4 NoMemory",
            FileFault::NoKeys => "file 5 NoKeys",
            FileFault::NoCertificate => "file 6 NoCertificate",
            FileFault::Locked => "file 7 Locked",
        };
        f.write_str(text)
    }
}

impl Error for FileFault {}
