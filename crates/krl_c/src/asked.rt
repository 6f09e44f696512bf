//! The key or the certificate of a query.

ghost use Rattle.std.specs.Prelude.{◌≡◌, IfErr, IfOk};
ghost use Rattle.krl_c.specs.Asked.{IsQuery, IsReportedRefusal, has_odd_id};

use ssh_cert::{Subject, SubjectFault, subject};
use std::alloc::Global;

/// Why a list is not asked about a blob.
#[derive(Clone, Copy)]
pub enum BlobFault {
    /// It is neither the blob of a key nor of a certificate, or an allocation failed.
    Subject(SubjectFault),
    /// It is a certificate whose key ID has a zero byte. OpenSSH reads another key ID, or no
    /// certificate.
    KeyId,
}

// The subject of a query for a blob.
pub(crate) fn asked_for(alloc: Global, blob: &[u8]) -> Result<Subject<'_>, BlobFault>
    ensures found { IfOk result (λ asked. IsQuery blob.now asked) }
    ensures fault { IfErr result (λ fault. IsReportedRefusal blob.now fault) }
{
    match subject(alloc, blob) {
        Ok(asked) => {
            if has_odd_id(&asked) {
                Err(BlobFault::KeyId)
            } else {
                Ok(asked)
            }
        }
        Err(fault) => Err(BlobFault::Subject(fault)),
    }
}

// Whether this is a certificate whose key ID has a zero byte.
fn has_odd_id(asked: &Subject) -> bool
    ensures { result ≡ has_odd_id asked.now.cert }
{
    match &asked.cert {
        Some(names) => names.key_id.contains(&0),
        None => false,
    }
}
