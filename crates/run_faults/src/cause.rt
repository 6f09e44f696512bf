//! Why a run stops.

ghost use Rattle.std.specs.Prelude.{◌≡◌, Some};
ghost use Rattle.run_faults.specs.RunFault.{cause_number, cause_text, krl_cause};

use crate::file_fault::FileFault;
use crate::spec_cause::SpecCause;
use key_text::PrivateFault;
use keyed_lines::KeyCause;
use krl_types::KrlFault;
use std::fmt;

/// The cause that stopped a run.
#[derive(Clone, Copy, Debug, PartialEq, Eq)]
pub enum Cause {
    /// A file could not be used.
    File(FileFault),
    /// A revocation list cannot be read.
    Krl(KrlFault),
    /// A line gives no key, or the blob of a key cannot be read.
    Key(KeyCause),
    /// A private key file cannot be read.
    Private(PrivateFault),
    /// A line of a specification file has a fault.
    Spec(SpecCause),
    /// An allocation of the run itself failed.
    NoMemory,
    /// The old list has the largest version.
    VersionFull,
    /// The list would be too long to be read.
    TextTooLong,
    /// The output failed after this many bytes.
    Output { count: u64 },
}

impl Cause {
    /// The number of the fault that it carries; otherwise 1 to 3 in the order of the variants, and
    /// 1 for `Output`.
    pub fn number(self) -> u8
        ensures { result ≡ cause_number self }
    {
        match self {
            Cause::File(fault) => fault.number(),
            Cause::Krl(fault) => fault.number(),
            Cause::Key(KeyCause::Line(fault)) => fault.number(),
            Cause::Key(KeyCause::Subject(fault)) => fault.number(),
            Cause::Private(fault) => fault.number(),
            Cause::Spec(cause) => cause.number(),
            Cause::NoMemory => 1,
            Cause::VersionFull => 2,
            Cause::TextTooLong => 3,
            Cause::Output { .. } => 1,
        }
    }
}

impl fmt::Display for Cause {
    ghost output = { λ cause. Some (cause_text cause) };

    #[tactic(auto, unfolding(crate::specs::RunFault::cause_text))]
    fn fmt<W: fmt::Write>(&self, f: &mut fmt::Formatter<W>) -> fmt::Result {
        match self {
            Cause::File(fault) => fault.fmt(f),
            Cause::Krl(fault) => fault.fmt(f),
            Cause::Key(cause) => cause.fmt(f),
            Cause::Private(fault) => fault.fmt(f),
            Cause::Spec(cause) => cause.fmt(f),
            Cause::NoMemory => f.write_str("run 1 NoMemory"),
            Cause::VersionFull => f.write_str("run 2 VersionFull"),
            Cause::TextTooLong => f.write_str("run 3 TextTooLong"),
            Cause::Output { count } => write!(f, "output 1 Write after {count} bytes"),
        }
    }
}

/// Why a run stops at a fault of a list. A failed allocation is a fault of the run itself.
pub fn cause_of(fault: KrlFault) -> Cause
    ensures { result ≡ krl_cause fault }
{
    if fault == KrlFault::NoMemory {
        Cause::NoMemory
    } else {
        Cause::Krl(fault)
    }
}
