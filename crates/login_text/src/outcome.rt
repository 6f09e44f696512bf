//! What a line of a log reports.

ghost use Rattle.std.specs.Prelude.{IfOk};
ghost use Rattle.login_text.specs.Outcome.{IsOutcome, IsDecoded, outcome_is};

use login_lines::{Certificate, Login, LoginFault, login_of, unescape};
use std::alloc::{AllocError, Global};

/// What a line of a log reports.
#[derive(Drop)]
pub enum Outcome<'a> {
    /// Something other than a login by a key.
    Other,
    /// A login, with the decoded key ID of its certificate. A plain key has an empty one.
    Login { login: Login<'a>, id: Vec<u8> },
    /// A login that cannot be read.
    Unread(LoginFault),
}

/// What a line reports. It is without its line feed. Fails only if an allocation fails.
pub fn read_outcome(alloc: Global, line: &[u8]) -> Result<Outcome<'_>, AllocError>
    ensures { IfOk result (λ outcome. IsOutcome line.now (outcome_is outcome)) }
{
    match login_of(line) {
        Ok(None) => Ok(Outcome::Other),
        Ok(Some(login)) => match decoded_id(alloc, &login.certificate)? {
            Some(id) => Ok(Outcome::Login { login, id }),
            None => Ok(Outcome::Unread(LoginFault::Malformed)),
        },
        Err(fault) => Ok(Outcome::Unread(fault)),
    }
}

// The decoded key ID of a certificate, if the log spells one. A plain key has an empty one.
fn decoded_id(
    alloc: Global,
    certificate: &Option<Certificate<'_>>,
) -> Result<Option<Vec<u8>>, AllocError>
    ensures { IfOk result (IsDecoded certificate.now) }
{
    match certificate {
        None => Ok(Some(Vec::new(alloc))),
        Some(certificate) => unescape(alloc, certificate.id),
    }
}
