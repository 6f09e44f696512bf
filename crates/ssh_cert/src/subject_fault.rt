//! Why a blob has no subject.

ghost use Rattle.std.specs.Prelude.{◌≡◌, Some};
ghost use Rattle.ssh_cert.specs.SubjectFault.{subject_fault_number, subject_fault_text};
ghost use Rattle.ssh_cert.specs.declared.subject_fault.SubjectFault.TheVariants.{NoMemory};

use crate::fault::CertFault;
use ssh_key::KeyFault;
use std::alloc::AllocError;
use std::error::Error;
use std::fmt;

/// Why a revocation list cannot be queried for a blob. It prints as `subject`, its number and its
/// name; after `Key` and `Cert` comes the fault of the key or of the certificate.
#[derive(Clone, Copy, Debug, PartialEq, Eq)]
pub enum SubjectFault {
    /// Its first string is not the type name of a certificate, and it is not a plain key.
    Key(KeyFault),
    /// Its first string is the type name of a certificate, but it is not a certificate.
    Cert(CertFault),
    /// The allocation for the plain key failed.
    NoMemory,
}

impl SubjectFault {
    /// The fault's number, 1 to 3 in the order of the variants.
    pub fn number(self) -> u8
        ensures { result ≡ subject_fault_number self }
    {
        match self {
            SubjectFault::Key(_) => 1,
            SubjectFault::Cert(_) => 2,
            SubjectFault::NoMemory => 3,
        }
    }
}

impl fmt::Display for SubjectFault {
    ghost output = { λ fault. Some (subject_fault_text fault) };

    fn fmt<W: fmt::Write>(&self, f: &mut fmt::Formatter<W>) -> fmt::Result {
        match self {
            SubjectFault::Key(fault) => write!(f, "subject 1 Key, {fault}"),
            SubjectFault::Cert(fault) => write!(f, "subject 2 Cert, {fault}"),
            SubjectFault::NoMemory => f.write_str("subject 3 NoMemory"),
        }
    }
}

impl Error for SubjectFault {}

impl From<AllocError> for SubjectFault {
    ghost from_gives = { λ _ fault. fault ≡ NoMemory };

    fn from(_error: AllocError) -> SubjectFault {
        SubjectFault::NoMemory
    }
}
