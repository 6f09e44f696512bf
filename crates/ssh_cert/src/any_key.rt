//! A plain key or a certificate, by its blob.

ghost use Rattle.std.specs.Prelude.{◌≡◌, Err, IfErr, IfOk};
ghost use Rattle.ssh_cert.specs.AnyKey.{IsReadAs, asked_of, plain_of};
ghost use Rattle.ssh_cert.specs.SubjectReading.{IsSubjectFault, is_certificate, subject_of};

use crate::cert::Cert;
use crate::reading::read_cert;
use crate::subject_fault::SubjectFault;
use krl_types::{CertNames, Subject};
use ssh_key::{Kind, PublicKey, plain_blob, read_key};
use ssh_wire::{Bytes, Cursor};
use std::alloc::{AllocError, Global};

/// A plain key or a certificate, borrowed from its blob.
#[derive(Drop)]
pub enum AnyKey<'a> {
    /// A plain key.
    Plain(PublicKey<'a>),
    /// A certificate.
    Certified(Cert<'a>),
}

/// The plain key or the certificate that a blob spells. A blob whose first string is the type name
/// of a certificate is read as a certificate, any other as a plain key. Does not allocate.
pub fn read_any<'a>(blob: &'a [u8]) -> Result<AnyKey<'a>, SubjectFault>
    // The blob spells what is read.
    ensures found { IfOk result (λ any. IsReadAs blob.now any) }
    // The fault is the first one.
    ensures fault { IfErr result (λ fault. IsSubjectFault blob.now fault) }
    // The fault is that of `subject_of`, for callers that compute with it.
    ensures exact { IfErr result (λ fault. subject_of blob.now ≡ Err fault) }
{
    if is_certificate(blob) {
        match read_cert(blob) {
            Ok(cert) => Ok(AnyKey::Certified(cert)),
            Err(fault) => Err(SubjectFault::Cert(fault)),
        }
    } else {
        match read_key(blob) {
            Ok(key) => Ok(AnyKey::Plain(key)),
            Err(fault) => Err(SubjectFault::Key(fault)),
        }
    }
}

// Whether the first string is the type name of a certificate.
#[tactic(auto, unfolding(crate::specs::SubjectReading::is_certificate))]
fn is_certificate(blob: &[u8]) -> bool
    ensures { result ≡ is_certificate blob.now }
{
    match Cursor::new(blob).string() {
        Ok(name) => Kind::of_cert_name(name).is_some(),
        Err(_) => false,
    }
}

impl<'a> AnyKey<'a> {
    /// The plain key, or that of the certificate.
    pub fn plain(&self) -> &PublicKey<'a>
        ensures { result.now ≡ plain_of self.now }
    {
        match self {
            AnyKey::Plain(key) => key,
            AnyKey::Certified(cert) => cert.key(),
        }
    }

    /// The subject of a query for it (ssh-keygen(1), KEY REVOCATION LISTS). Fails only if an
    /// allocation fails.
    pub fn subject(&self, alloc: Global) -> Result<Subject<'a>, AllocError>
        ensures { IfOk result (λ asked. asked ≡ asked_of self.now) }
    {
        let plain = plain_blob(alloc, self.plain())?;
        Ok(Subject {
            plain: Bytes::from_vec(plain),
            cert: self.names(),
        })
    }

    // The names of the certificate, if it is one.
    fn names(&self) -> Option<CertNames<'a>>
        ensures { result ≡ (asked_of self.now).cert }
    {
        match self {
            AnyKey::Plain(_) => None,
            AnyKey::Certified(cert) => Some(CertNames {
                serial: cert.serial(),
                key_id: cert.key_id(),
                authority: cert.authority(),
            }),
        }
    }
}
