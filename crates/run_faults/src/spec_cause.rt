//! Why a line of a specification file is faulty.

ghost use Rattle.std.specs.Prelude.{◌≡◌, Some};
ghost use Rattle.run_faults.specs.SpecCause.{spec_cause_number, spec_cause_text};
ghost use Rattle.run_faults.specs.declared.spec_cause.SpecCause.TheVariants.{NoMemory};

use key_text::FingerprintFault;
use keyed_lines::KeyCause;
use std::alloc::AllocError;
use std::error::Error;
use std::fmt;

/// Why a line of a specification file is faulty. It prints as `spec`, its number and its name;
/// after `Key` and `Fingerprint` comes the fault of the key or of the fingerprint.
#[derive(Clone, Copy, Debug, PartialEq, Eq)]
pub enum SpecCause {
    /// A serial is not a number below 2^64.
    Number,
    /// A serial is 0, which names no certificate.
    Zero,
    /// The last serial of a range is below the first.
    Reversed,
    /// A serial or a key ID, but no authority is given.
    NoAuthority,
    /// A key ID is empty.
    EmptyId,
    /// A key line names no key.
    Key(KeyCause),
    /// A fingerprint names no digest.
    Fingerprint(FingerprintFault),
    /// An allocation failed.
    NoMemory,
}

impl SpecCause {
    /// The fault's number, 1 to 8 in the order of the variants.
    pub fn number(self) -> u8
        ensures { result ≡ spec_cause_number self }
    {
        match self {
            SpecCause::Number => 1,
            SpecCause::Zero => 2,
            SpecCause::Reversed => 3,
            SpecCause::NoAuthority => 4,
            SpecCause::EmptyId => 5,
            SpecCause::Key(_) => 6,
            SpecCause::Fingerprint(_) => 7,
            SpecCause::NoMemory => 8,
        }
    }
}

impl fmt::Display for SpecCause {
    ghost output = { λ cause. Some (spec_cause_text cause) };

    fn fmt<W: fmt::Write>(&self, f: &mut fmt::Formatter<W>) -> fmt::Result {
        match self {
            SpecCause::Number => f.write_str("spec 1 Number"),
            SpecCause::Zero => f.write_str("spec 2 Zero"),
            SpecCause::Reversed => f.write_str("spec 3 Reversed"),
            SpecCause::NoAuthority => f.write_str("spec 4 NoAuthority"),
            SpecCause::EmptyId => f.write_str("spec 5 EmptyId"),
            SpecCause::Key(cause) => write!(f, "spec 6 Key, {cause}"),
            SpecCause::Fingerprint(fault) => write!(f, "spec 7 Fingerprint, {fault}"),
            SpecCause::NoMemory => f.write_str("spec 8 NoMemory"),
        }
    }
}

impl Error for SpecCause {}

impl From<AllocError> for SpecCause {
    ghost from_gives = { λ _ cause. cause ≡ NoMemory };

    fn from(_error: AllocError) -> SpecCause {
        SpecCause::NoMemory
    }
}
