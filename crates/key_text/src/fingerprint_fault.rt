//! Why a printed fingerprint is refused.

ghost use Rattle.std.specs.Prelude.{◌≡◌, Some};
ghost use Rattle.key_text.specs.FingerprintFault.{fingerprint_fault_number, fingerprint_fault_text};

use std::error::Error;
use std::fmt;

/// Why a text is not a fingerprint. It prints as `fingerprint`, its number and its name.
#[derive(Clone, Copy, Debug, PartialEq, Eq)]
pub enum FingerprintFault {
    /// The text does not begin with `SHA256:`, in upper case.
    Prefix,
    /// The text after the prefix is not base64 without padding, its unused bits zero.
    Base64,
    /// It does not encode 32 bytes.
    Length,
    /// An allocation failed.
    NoMemory,
}

impl FingerprintFault {
    /// The fault's number, 1 to 4 in the order of the variants.
    pub fn number(self) -> u8
        ensures { result ≡ fingerprint_fault_number self }
    {
        match self {
            FingerprintFault::Prefix => 1,
            FingerprintFault::Base64 => 2,
            FingerprintFault::Length => 3,
            FingerprintFault::NoMemory => 4,
        }
    }
}

impl fmt::Display for FingerprintFault {
    ghost output = { λ fault. Some (fingerprint_fault_text fault) };

    fn fmt<W: fmt::Write>(&self, f: &mut fmt::Formatter<W>) -> fmt::Result {
        let text = match self {
            FingerprintFault::Prefix => "fingerprint 1 Prefix",
            FingerprintFault::Base64 => "fingerprint 2 Base64",
            FingerprintFault::Length => "fingerprint 3 Length",
            FingerprintFault::NoMemory => "fingerprint 4 NoMemory",
        };
        f.write_str(text)
    }
}

impl Error for FingerprintFault {}
