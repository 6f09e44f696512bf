//! The subject of a blob.

ghost use Rattle.std.specs.Prelude.{◌≡◌, IfErr, IfOk, Ok};
ghost use Rattle.krl_types.specs.Subject.{Subject};
ghost use Rattle.ssh_cert.specs.SubjectReading.{AnswersSubject, IsSubject, IsReportedFault};
ghost use Rattle.ssh_cert.specs.SubjectReading.{subject_of};

use crate::any_key::read_any;
use crate::subject_fault::SubjectFault;
use krl_types::Subject;
use std::alloc::Global;

/// The subject of a blob, for a query of a revocation list (ssh-keygen(1), KEY REVOCATION LISTS):
/// for a plain key the blob, and for a certificate the blob of its plain key, its serial number,
/// its key ID and the blob of its certificate authority. A blob whose first string is the type name
/// of a certificate is read as a certificate, any other as a plain key.
pub fn subject<'a>(alloc: Global, blob: &'a [u8]) -> Result<Subject<'a>, SubjectFault>
    // The subject is that of a plain key or of a certificate.
    ensures found { IfOk result (λ asked. IsSubject blob.now asked) }
    // Each plain key and certificate gives its subject, unless an allocation fails.
    ensures only { (asked : Subject) → IsSubject blob.now asked → AnswersSubject result (Ok asked) }
    // The fault is the first one, or an allocation failed.
    ensures fault { IfErr result (λ fault. IsReportedFault blob.now fault) }
    // The answer is that of `subject_of`, for callers that compute with it.
    ensures exact { AnswersSubject result (subject_of blob.now) }
{
    asked(alloc, blob)
}

// The subject of a blob, by what it is read as.
fn asked<'a>(alloc: Global, blob: &'a [u8]) -> Result<Subject<'a>, SubjectFault>
    ensures { AnswersSubject result (subject_of blob.now) }
{
    let any = read_any(blob)?;
    Ok(any.subject(alloc)?)
}
