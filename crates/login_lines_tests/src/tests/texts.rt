//! The line of a login for people (krl(1), krl logins and OUTPUT).

use crate::tests::outcomes::{AFTER, BEFORE, CERTIFICATE, KEY};
use audit_text::{Format, Location};
use krl_entries::{Reason, Reasons};
use login_lines::Login;
use login_text::{LoginVerdict, Outcome, read_outcome, say_login, subject_of};
use std::alloc::Global;
use std::process::Abort;
use test_fixtures::joined;
use text_index::Explanation;

/// Each reason that a list of fingerprints may give.
pub const EACH: &[Reason] = &[
    Reason::Key,
    Reason::KeySha256,
    Reason::Authority,
    Reason::AuthoritySha256,
    Reason::Serial,
    Reason::SerialOfAll,
    Reason::KeyId,
    Reason::KeyIdOfAll,
];

/// These reasons.
pub fn reasons_of(reasons: &[Reason]) -> Reasons {
    let mut bits = 0u16;
    for reason in reasons {
        bits |= 1 << *reason as u16;
    }
    Reasons { bits }
}

/// The text printed about the login of a line, which is the third one of `auth.log`, for these
/// reasons.
pub fn said_about(
    rt: &impl Abort,
    alloc: Global,
    form: Format,
    line: &[u8],
    reasons: &[Reason],
) -> Vec<u8> {
    let explanation: Option<Explanation<'static>> = None;
    said_with(rt, alloc, form, line, reasons, &explanation)
}

/// The same, with what explains the reasons.
pub fn said_with<'s>(
    rt: &impl Abort,
    alloc: Global,
    form: Format,
    line: &'s [u8],
    reasons: &[Reason],
    explanation: &Option<Explanation<'s>>,
) -> Vec<u8> {
    let mut said = Vec::from_slice(alloc, b"a line before").expect(rt, "there is memory");
    match &read_outcome(alloc, line).expect(rt, "there is memory") {
        Outcome::Login { login, id } => {
            let found = (login, id.as_slice());
            let reasons = reasons_of(reasons);
            say(rt, alloc, form, found, reasons, explanation, &mut said);
        }
        Outcome::Other | Outcome::Unread(_) => assert!(rt; false, "it is no login"),
    }
    said
}

// Makes the text about a login with its key ID.
fn say<'s>(
    rt: &impl Abort,
    alloc: Global,
    form: Format,
    found: (&'s Login<'s>, &'s [u8]),
    reasons: Reasons,
    explanation: &'s Option<Explanation<'s>>,
    said: &mut Vec<u8>,
) {
    let (login, id) = found;
    let subject = subject_of(alloc, login, id).expect(rt, "there is memory");
    let verdict = LoginVerdict {
        login,
        id,
        subject: &subject,
        reasons,
        explanation,
    };
    let location = Location::line("auth.log", 3);
    say_login(alloc, form, location, &verdict, said).expect(rt, "there is memory");
}

// A line, the reasons of the answer, and the printed line from behind the mark on.
static LINES: [(&[u8], &[Reason], &[u8]); 5] = [
    (
        KEY,
        &[Reason::Key],
        b"ED25519 SHA256:RE0ZAsYmhXCrq75OR/3QxG+eyUgI1rLkxQpkbYWGCGI by its key: \
root from 127.0.0.1\n",
    ),
    (
        KEY,
        &[],
        b"ED25519 SHA256:RE0ZAsYmhXCrq75OR/3QxG+eyUgI1rLkxQpkbYWGCGI: root from 127.0.0.1\n",
    ),
    (
        CERTIFICATE,
        EACH,
        b"ED25519-CERT SHA256:RE0ZAsYmhXCrq75OR/3QxG+eyUgI1rLkxQpkbYWGCGI by its key, \
by its SHA-256, by the key of its CA, by the SHA-256 of its CA, \
by serial 5 of CA SHA256:11kQQXkjpRxKIH3m94KRTIwYUOxGz9hdeAQwIaielZ0, by serial 5 of all CAs, \
by key ID \"bob\" of CA SHA256:11kQQXkjpRxKIH3m94KRTIwYUOxGz9hdeAQwIaielZ0, \
by key ID \"bob\" of all CAs: root from 127.0.0.1 (ID bob)\n",
    ),
    (
        CERTIFICATE,
        &[],
        b"ED25519-CERT SHA256:RE0ZAsYmhXCrq75OR/3QxG+eyUgI1rLkxQpkbYWGCGI: \
root from 127.0.0.1 (ID bob)\n",
    ),
    // The step of an incomplete login is not printed.
    (
        b"Partial publickey for root from ::1 port 35156 ssh2: \
RSA SHA256:2OkI6Jb19BgFbB52uc0b8Zoya8hEjgDOxyXmQtEyahM\r",
        &[Reason::KeySha256],
        b"RSA SHA256:2OkI6Jb19BgFbB52uc0b8Zoya8hEjgDOxyXmQtEyahM by its SHA-256: root from ::1\n",
    ),
];

#[test]
fn lines_of_logins(rt: HostRuntime) {
    let alloc = rt.alloc();
    for (i, (line, reasons, said)) in LINES.iter().enumerate() {
        let (plain, coloured): (&[u8], &[u8]) = if reasons.is_empty() {
            (b"auth.log:3: ok: ", b"auth.log:3: \x1b[32mok\x1b[0m: ")
        } else {
            (
                b"auth.log:3: revoked: ",
                b"auth.log:3: \x1b[31mrevoked\x1b[0m: ",
            )
        };
        for (form, mark) in [(Format::Text, plain), (Format::Colour, coloured)] {
            let found = said_about(&rt, alloc, form, line, reasons);
            let wanted = joined(alloc, &[mark, *said]).expect(&rt, "there is memory");
            assert_eq!(rt; found.as_slice(), wanted.as_slice(), "in row {i}");
        }
    }
}

// The text that sshd writes for a key ID, the same ID between the quotes of a reason, and as it is
// printed after the user.
static IDS: [(&[u8], &[u8], &[u8]); 7] = [
    (b"", b"", b""),
    (b" a ", b" a ", b" a "),
    (b"a\"'`$b", b"a\\\"'`$b", b"a\"'`$b"),
    (b"a\\\\b", b"a\\\\b", b"a\\b"),
    (b"b\\303\\274rger", b"b\xc3\xbcrger", b"b\xc3\xbcrger"),
    (b"\\302\\233", b"\\x9b", b"\\x9b"),
    (b"a\\033[m\\377", b"a\\x1b[m\\xff", b"a\\x1b[m\\xff"),
];

#[test]
fn key_ids_are_shown(rt: HostRuntime) {
    let alloc = rt.alloc();
    for (i, (id, quoted, shown)) in IDS.iter().enumerate() {
        let line = joined(alloc, &[BEFORE, *id, AFTER]).expect(&rt, "there is memory");
        let found = said_about(&rt, alloc, Format::Text, &line, &[Reason::KeyIdOfAll]);
        let parts: [&[u8]; 5] = [
            b"auth.log:3: revoked: \
ED25519-CERT SHA256:RE0ZAsYmhXCrq75OR/3QxG+eyUgI1rLkxQpkbYWGCGI by key ID \"",
            *quoted,
            b"\" of all CAs: root from 127.0.0.1 (ID ",
            *shown,
            b")\n",
        ];
        let wanted = joined(alloc, &parts).expect(&rt, "there is memory");
        assert_eq!(rt; found.as_slice(), wanted.as_slice(), "in row {i}");
    }
}

#[test]
fn a_user_and_an_address_are_shown(rt: HostRuntime) {
    let line = b"Accepted publickey for a\x1b[31m\xe9 from \xe2\x80\xae::1 port 22 ssh2: \
RSA SHA256:2OkI6Jb19BgFbB52uc0b8Zoya8hEjgDOxyXmQtEyahM\r";
    let found = said_about(&rt, rt.alloc(), Format::Text, line, &[]);
    let wanted = b"auth.log:3: ok: RSA SHA256:2OkI6Jb19BgFbB52uc0b8Zoya8hEjgDOxyXmQtEyahM: \
a\\x1b[31m\\xe9 from \\xe2\\x80\\xae::1\n";
    assert_eq!(rt; found.as_slice(), wanted.as_slice());
}
