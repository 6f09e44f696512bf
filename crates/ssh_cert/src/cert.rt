//! Certificates, borrowed from their blobs.

ghost use Rattle.std.specs.Prelude.{◌≡◌};

use crate::options::Options;
use crate::role::Role;
use crate::strings::Strings;
use ssh_key::{Kind, PublicKey};
use std::marker::Model;

/// A certificate, borrowed from its blob. Its signature is not checked.
#[derive(Drop)]
pub struct Cert<'a> {
    pub(crate) nonce: &'a [u8],
    pub(crate) key: PublicKey<'a>,
    pub(crate) serial: u64,
    pub(crate) role: Role,
    pub(crate) key_id: &'a [u8],
    pub(crate) principals: Strings<'a>,
    pub(crate) after: u64,
    pub(crate) before: u64,
    pub(crate) critical: Options<'a>,
    pub(crate) extensions: Options<'a>,
    pub(crate) authority: &'a [u8],
    pub(crate) authority_key: PublicKey<'a>,
    pub(crate) algorithm: &'a [u8],
}

impl<'a> Model for Cert<'a> {
    ghost use Rattle.ssh_cert.specs.Cert.{Cert};

    ghost Value = { Cert };

    ghost view = { λ cert. record {
      nonce = cert.nonce.now;
      key = cert.key;
      serial = cert.serial;
      role = cert.role;
      key_id = cert.key_id.now;
      principals = cert.principals;
      after = cert.after;
      before = cert.before;
      critical = cert.critical;
      extensions = cert.extensions;
      authority = cert.authority.now;
      authority_key = cert.authority_key;
      algorithm = cert.algorithm.now;
    } };
}

impl<'a> Cert<'a> {
    /// The kind of the plain key.
    pub fn kind(&self) -> Kind
        ensures { result ≡ self.now.key.kind }
    {
        self.key.kind()
    }

    /// The certificate authority's random bytes, which prevent collisions of the signature's hash.
    pub fn nonce(&self) -> &'a [u8]
        ensures { result.now ≡ self.now.nonce }
    {
        self.nonce
    }

    /// The plain key that is certified.
    pub fn key(&self) -> &PublicKey<'a>
        ensures { result.now ≡ self.now.key }
    {
        &self.key
    }

    /// The serial number. Certificate authorities that do not number their certificates write zero.
    pub fn serial(&self) -> u64
        ensures { result ≡ self.now.serial }
    {
        self.serial
    }

    /// Whether the certificate is for a user or a host.
    pub fn role(&self) -> Role
        ensures { result ≡ self.now.role }
    {
        self.role
    }

    /// The key ID, which identifies the certificate in the authority's logs. It need not be text.
    pub fn key_id(&self) -> &'a [u8]
        ensures { result.now ≡ self.now.key_id }
    {
        self.key_id
    }

    /// The users or hosts for which the certificate is valid. An empty list means any.
    pub fn principals(&self) -> Strings<'a>
        ensures { result ≡ self.now.principals }
    {
        self.principals.again()
    }

    /// The first second at which the certificate is valid, counted from 1970.
    pub fn after(&self) -> u64
        ensures { result ≡ self.now.after }
    {
        self.after
    }

    /// The first second at which the certificate is no longer valid, counted from 1970.
    pub fn before(&self) -> u64
        ensures { result ≡ self.now.before }
    {
        self.before
    }

    /// The critical options, which a server must know to accept the certificate.
    pub fn critical(&self) -> Options<'a>
        ensures { result ≡ self.now.critical }
    {
        self.critical.again()
    }

    /// The extensions, which a server may ignore.
    pub fn extensions(&self) -> Options<'a>
        ensures { result ≡ self.now.extensions }
    {
        self.extensions.again()
    }

    /// The blob of the certificate authority's key.
    pub fn authority(&self) -> &'a [u8]
        ensures { result.now ≡ self.now.authority }
    {
        self.authority
    }

    /// The certificate authority's key, which is a plain key.
    pub fn authority_key(&self) -> &PublicKey<'a>
        ensures { result.now ≡ self.now.authority_key }
    {
        &self.authority_key
    }

    /// The name of the signature's algorithm. It need not be text.
    pub fn algorithm(&self) -> &'a [u8]
        ensures { result.now ≡ self.now.algorithm }
    {
        self.algorithm
    }
}
