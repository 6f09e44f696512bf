//! The callers of the pages of `login_lines` and `login_text`.

use crate::tests::outcomes::{CERTIFICATE, KEY};
use krl_entries::Revocations;
use krl_fingerprints::fingerprint_list;
use login_lines::{LoginFault, login_of};
use login_text::{Outcome, read_outcome, subject_of};
use span_sets::Held;
use std::alloc::{AllocError, Global};
use std::test::Fail;
use test_fixtures::GITHUB;

/// Whether a line reports a login by a certificate of the authority with this SHA-256.
fn is_of_authority(line: &[u8], sha256: &[u8; 32]) -> Result<bool, LoginFault> {
    let Some(login) = login_of(line)? else {
        return Ok(false);
    };
    match login.certificate {
        Some(certificate) => Ok(certificate.authority.sha256 == *sha256),
        None => Ok(false),
    }
}

/// Whether a line reports a login by a key or a certificate that a list by fingerprints revokes.
fn is_revoked_login(
    alloc: Global,
    prints: &Revocations<Held>,
    line: &[u8],
) -> Result<bool, AllocError> {
    match &read_outcome(alloc, line)? {
        Outcome::Login { login, id } => {
            let subject = subject_of(alloc, login, id.as_slice())?;
            Ok(prints.query(&subject))
        }
        Outcome::Other | Outcome::Unread(_) => Ok(false),
    }
}

#[test]
fn the_caller_of_the_page(rt: HostRuntime) {
    let line = b"Accepted publickey for bob from ::1 port 22 ssh2: ED25519-CERT \
        SHA256:AAAAAAAAAAAAAAAAAAAAAAAAAAAAAAAAAAAAAAAAAAA ID bob (serial 1) CA ED25519 \
        SHA256:AAAAAAAAAAAAAAAAAAAAAAAAAAAAAAAAAAAAAAAAAAA";
    assert!(rt; matches!(is_of_authority(line, &[0; 32]), Ok(true)));
    assert!(rt; matches!(is_of_authority(line, &[1; 32]), Ok(false)));
    assert!(rt; matches!(is_of_authority(b"Connection closed", &[0; 32]), Ok(false)));
    assert!(rt; is_of_authority(b"Accepted hostbased for bob", &[0; 32]).is_err());
}

// A login by the published key.
const PUBLISHED: &[u8] = b"Accepted publickey for root from ::1 port 22 ssh2: ED25519 \
SHA256:+DiY3wvvV6TuJJhbpZisF/zLDA0zPMSvHdkr4UvCOqU";

#[test]
fn a_revoked_login(rt: HostRuntime) -> Result<(), Fail> {
    let alloc = rt.alloc();
    let mut list: Revocations<Held> = Revocations::new(alloc);
    list.add_key(GITHUB)?;
    list.add_id(b"", b"bob")?;
    let prints = fingerprint_list(alloc, &list)?;
    assert!(rt; is_revoked_login(alloc, &prints, PUBLISHED)?);
    assert!(rt; is_revoked_login(alloc, &prints, CERTIFICATE)?);
    assert!(rt; !is_revoked_login(alloc, &prints, KEY)?);
    assert!(rt; !is_revoked_login(alloc, &prints, b"Accepted hostbased for bob")?);
    assert!(rt; !is_revoked_login(alloc, &prints, b"")?);
    Ok(())
}
