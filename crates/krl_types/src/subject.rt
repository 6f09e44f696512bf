//! The subject of a query of a revocation list.

use ssh_wire::Bytes;
use std::marker::Model;

/// The parts of a certificate that a revocation list can name, besides its plain key.
#[derive(Drop)]
pub struct CertNames<'a> {
    /// The serial number. Zero names no certificate.
    pub serial: u64,
    /// The key ID. It need not be text.
    pub key_id: &'a [u8],
    /// The blob of the certificate authority's key.
    pub authority: &'a [u8],
}

impl<'a> Model for CertNames<'a> {
    ghost use Rattle.krl_types.specs.Subject.{CertNames};

    ghost Value = { CertNames };

    ghost view = { λ names. record {
      serial = names.serial;
      key_id = names.key_id.now;
      authority = names.authority.now;
    } };
}

/// The subject of a query of a revocation list: a plain key, or a certificate and its plain key.
#[derive(Drop)]
pub struct Subject<'a> {
    /// The blob of the plain key.
    pub plain: Bytes,
    /// The names of the certificate, if it is one.
    pub cert: Option<CertNames<'a>>,
}

impl<'a> Model for Subject<'a> {
    ghost use Rattle.krl_types.specs.Subject.{Subject};

    ghost Value = { Subject };

    ghost view = { λ subject. record { plain = subject.plain; cert = subject.cert } };
}
