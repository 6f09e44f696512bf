//! Why blobs are not certificates.

ghost use Rattle.std.specs.Prelude.{◌≡◌, Some};
ghost use Rattle.ssh_cert.specs.CertFault.{cert_fault_number, cert_fault_text};
ghost use Rattle.ssh_cert.specs.declared.fault.CertFault.TheVariants.{Wire};

use ssh_key::KeyFault;
use ssh_wire::WireFault;
use std::error::Error;
use std::fmt;

/// Why a blob is not a certificate. If there are several faults, the first is reported, in the
/// order of the fields. It prints as `cert`, its number and its name; after `Key` and `Authority`
/// comes the fault of the key.
#[derive(Clone, Copy, Debug, PartialEq, Eq)]
pub enum CertFault {
    /// A field outside the public fields of the key is truncated.
    Wire,
    /// The type name is not that of a certificate. The name of a plain key's type is not.
    UnknownType,
    /// The public fields of the key are not those of its kind, or are truncated.
    Key(KeyFault),
    /// The certificate is neither a user's nor a host's.
    CertType,
    /// The critical options or the extensions are not pairs of strings.
    Options,
    /// The principals are not strings.
    Principals,
    /// The signature key is not a plain key.
    Authority(KeyFault),
    /// The signature does not begin with the name of its algorithm.
    Signature,
    /// Bytes follow the signature.
    Trailing,
}

impl CertFault {
    /// The fault's number, 1 to 9 in the order of the variants.
    pub fn number(self) -> u8
        ensures { result ≡ cert_fault_number self }
    {
        match self {
            CertFault::Wire => 1,
            CertFault::UnknownType => 2,
            CertFault::Key(_) => 3,
            CertFault::CertType => 4,
            CertFault::Options => 5,
            CertFault::Principals => 6,
            CertFault::Authority(_) => 7,
            CertFault::Signature => 8,
            CertFault::Trailing => 9,
        }
    }
}

impl fmt::Display for CertFault {
    ghost output = { λ fault. Some (cert_fault_text fault) };

    fn fmt<W: fmt::Write>(&self, f: &mut fmt::Formatter<W>) -> fmt::Result {
        match self {
            CertFault::Wire => f.write_str("cert 1 Wire"),
            CertFault::UnknownType => f.write_str("cert 2 UnknownType"),
            CertFault::Key(fault) => write!(f, "cert 3 Key, {fault}"),
            CertFault::CertType => f.write_str("cert 4 CertType"),
            CertFault::Options => f.write_str("cert 5 Options"),
            CertFault::Principals => f.write_str("cert 6 Principals"),
            CertFault::Authority(fault) => write!(f, "cert 7 Authority, {fault}"),
            CertFault::Signature => f.write_str("cert 8 Signature"),
            CertFault::Trailing => f.write_str("cert 9 Trailing"),
        }
    }
}

impl Error for CertFault {}

impl From<WireFault> for CertFault {
    ghost from_gives = { λ _ fault. fault ≡ Wire };

    fn from(_fault: WireFault) -> CertFault {
        CertFault::Wire
    }
}
