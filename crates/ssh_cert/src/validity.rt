//! When a certificate is valid.

ghost use Rattle.std.specs.Prelude.{◌↔◌, IsTrue};
ghost use Rattle.ssh_cert.specs.Validity.{IsValidAt};

use crate::cert::Cert;

/// Whether the certificate is valid at a moment, in seconds from 1970 on: from its first second on,
/// and before the second at which its time ends.
pub fn valid_at(cert: &Cert, moment: u64) -> bool
    ensures { IsTrue result ↔ IsValidAt cert.now moment }
{
    cert.after() <= moment && moment < cert.before()
}
