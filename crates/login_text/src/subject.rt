//! What a list is asked about a login.

ghost use Rattle.std.specs.Prelude.{◌≡◌, IfOk};
ghost use Rattle.login_lines.specs.Logins.{reported_of};
ghost use Rattle.login_text.specs.Asked.{asked_by};

use krl_types::{CertNames, Subject};
use login_lines::Login;
use ssh_wire::Bytes;
use std::alloc::{AllocError, Global};

/// The query of a list of fingerprints about a login: the keys are given by their fingerprints. The
/// key ID is the decoded one. Fails only if an allocation fails.
pub fn subject_of<'s>(
    alloc: Global,
    login: &'s Login<'s>,
    id: &'s [u8],
) -> Result<Subject<'s>, AllocError>
    ensures { IfOk result (λ subject. subject ≡ asked_by (reported_of login.now) id.now) }
{
    let plain = Bytes::from_vec(Vec::from_slice(alloc, &login.key.sha256)?);
    let cert = match &login.certificate {
        None => None,
        Some(certificate) => Some(CertNames {
            serial: certificate.serial,
            key_id: id,
            authority: &certificate.authority.sha256,
        }),
    };
    Ok(Subject { plain, cert })
}
