//! The callers of the pages of `plain_list` and `keyed_lines`.

use key_text::{LineFault, read_line};
use keyed_lines::KeyCause;
use krl_entries::Revocations;
use plain_list::{PlainFault, read_plain};
use span_sets::Held;
use ssh_cert::{read_any, subject};
use std::alloc::Global;
use test_fixtures::{GITHUB, GITHUB_LINE, OTHER};

/// Whether a plain list revokes the key of a blob. A blob that is no key is revoked.
fn is_revoked_by(alloc: Global, list: &[u8], blob: &[u8]) -> Result<bool, PlainFault> {
    let revoked: Revocations<Held> = read_plain(alloc, list)?;
    match subject(alloc, blob) {
        Ok(asked) => Ok(revoked.query(&asked)),
        Err(_) => Ok(true),
    }
}

/// Why a line has no key, if it has none.
fn cause_of(alloc: Global, line: &[u8]) -> Option<KeyCause> {
    match read_line(alloc, line) {
        Ok(read) => match read_any(read.blob.as_slice()) {
            Ok(_) => None,
            Err(fault) => Some(KeyCause::Subject(fault)),
        },
        Err(fault) => Some(KeyCause::Line(fault)),
    }
}

#[test]
fn the_callers_of_the_pages(rt: HostRuntime) {
    assert!(rt; cause_of(rt.alloc(), GITHUB_LINE).is_none());
    let no_key = Some(KeyCause::Line(LineFault::NoKey));
    assert!(rt; cause_of(rt.alloc(), b"ssh-ed25519") == no_key);
    assert!(rt; is_revoked_by(rt.alloc(), GITHUB_LINE, GITHUB) == Ok(true));
    assert!(rt; is_revoked_by(rt.alloc(), GITHUB_LINE, OTHER) == Ok(false));
}
