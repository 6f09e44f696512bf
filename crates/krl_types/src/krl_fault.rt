//! Why a revocation list cannot be read.

ghost use Rattle.std.specs.Prelude.{◌≡◌, Some};
ghost use Rattle.krl_types.specs.KrlFault.{fault_number, fault_row, fault_text, reported_as};
ghost use Rattle.krl_types.specs.declared.krl_fault.KrlFault.TheVariants.{NoMemory};

use ssh_wire::PullFault;
use std::alloc::{AllocError, AllocFailed};
use std::error::Error;
use std::fmt;

/// Why a key revocation list cannot be read: the first fault in reading order. It prints as `krl`,
/// its number and its name.
#[derive(Clone, Copy, Debug, PartialEq, Eq)]
pub enum KrlFault {
    /// The first eight bytes are not those of a revocation list.
    Magic = 1,
    /// The format version is not 1.
    FormatVersion,
    /// The bytes end where more are expected.
    EndsEarly,
    /// A section has an unknown type.
    UnknownSection,
    /// A subsection of a certificate section has an unknown type.
    UnknownCertSection,
    /// A length does not fit what is left of its section or subsection.
    Length,
    /// A range ends before it begins.
    RangeReversed,
    /// A bitmap is a negative number.
    BitmapNegative,
    /// A bitmap names a serial number past the largest one.
    BitmapWraps,
    /// A hash does not have the length of its section's hashes.
    HashLength,
    /// Another section follows a signature.
    AfterSignature,
    /// The list is longer than 67,108,864 bytes.
    TooLong,
    /// The list's reader failed.
    Read,
    /// An allocation failed.
    NoMemory,
    /// An extension is critical; no extension is known.
    CriticalExtension,
}

impl KrlFault {
    /// The fault's number, 1 to 15 in the order of the variants.
    pub fn number(self) -> u8
        ensures { result ≡ fault_number self }
    {
        self as u8
    }

    // The fault's name, that of its variant.
    fn name(self) -> &'static str
        ensures { result.now ≡ (fault_row self).name }
    {
        match self {
            KrlFault::Magic => "Magic",
            KrlFault::FormatVersion => "FormatVersion",
            KrlFault::EndsEarly => "EndsEarly",
            KrlFault::UnknownSection => "UnknownSection",
            KrlFault::UnknownCertSection => "UnknownCertSection",
            KrlFault::Length => "Length",
            KrlFault::RangeReversed => "RangeReversed",
            KrlFault::BitmapNegative => "BitmapNegative",
            KrlFault::BitmapWraps => "BitmapWraps",
            KrlFault::HashLength => "HashLength",
            KrlFault::AfterSignature => "AfterSignature",
            KrlFault::TooLong => "TooLong",
            KrlFault::Read => "Read",
            KrlFault::NoMemory => "NoMemory",
            KrlFault::CriticalExtension => "CriticalExtension",
        }
    }
}

impl fmt::Display for KrlFault {
    ghost output = { λ fault. Some (fault_text fault) };

    fn fmt<W: fmt::Write>(&self, f: &mut fmt::Formatter<W>) -> fmt::Result {
        let (number, name) = (self.number(), self.name());
        write!(f, "krl {number} {name}")
    }
}

impl Error for KrlFault {}

impl From<AllocError> for KrlFault {
    ghost from_gives = { λ _ fault. fault ≡ NoMemory };

    fn from(_refused: AllocError) -> KrlFault {
        KrlFault::NoMemory
    }
}

impl<T: Drop> From<AllocFailed<T>> for KrlFault {
    ghost from_gives = { λ _ fault. fault ≡ NoMemory };

    fn from(_refused: AllocFailed<T>) -> KrlFault {
        KrlFault::NoMemory
    }
}

impl From<PullFault> for KrlFault {
    ghost from_gives = { λ why fault. fault ≡ reported_as why };

    fn from(why: PullFault) -> KrlFault {
        match why {
            PullFault::EndsEarly => KrlFault::EndsEarly,
            PullFault::TooLong => KrlFault::TooLong,
            PullFault::Read => KrlFault::Read,
            PullFault::NoMemory => KrlFault::NoMemory,
        }
    }
}
