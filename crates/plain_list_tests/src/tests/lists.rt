//! Lists of one or two lines, and what OpenSSH 9.2p1 did with them.

use key_text::{LineFault, read_line};
use krl_entries::Revocations;
use plain_list::{KeyCause, PlainFault, read_plain};
use span_sets::Held;
use ssh_cert::{SubjectFault, subject};
use ssh_key::KeyFault;
use std::alloc::Global;
use std::process::Abort;
use test_fixtures::{CERT_LINE, GITHUB, GITHUB_LINE, OTHER, OTHER_LINE, joined, repeated};

/// Whether a list revokes the key or the certificate of a line, or why it is refused.
pub fn asked(rt: &impl Abort, alloc: Global, list: &[u8], line: &[u8]) -> Result<bool, PlainFault> {
    let revoked: Revocations<Held> = read_plain(alloc, list)?;
    let line = read_line(alloc, line).expect(rt, "it is a key line");
    let asked = subject(alloc, line.blob.as_slice()).expect(rt, "it is a key");
    Ok(revoked.query(&asked))
}

// The bytes before a key and after it, and whether a list of these revokes this key and another
// one, or why it is refused.
const LISTS: [(&[u8], &[u8], Result<(bool, bool), (u64, LineFault)>); 22] = [
    (b"", b"", Ok((true, false))),
    (b"", b"\n", Ok((true, false))),
    (b" \t", b" \t comment", Ok((true, false))),
    (b"# c\n\n  \n\t\n \t # c\n", b"\n", Ok((true, false))),
    (b"# c\r\n", b"\r\n", Ok((true, false))),
    (b"", b" comment\r\n", Ok((true, false))),
    (b"", b"\0garbage\n", Ok((true, false))),
    (b"\0garbage\n# c\0\n", b"\n", Ok((true, false))),
    (b"\0", b"\n", Ok((false, false))),
    (b"#", b"\n", Ok((false, false))),
    (b"\r\n", b"", Err((1, LineFault::NoKey))),
    (b"", b"\n \r\n", Err((2, LineFault::NoKey))),
    (b"\x0b", b"\n", Err((1, LineFault::NoKey))),
    (b"\xef\xbb\xbf# c\n", b"\n", Err((1, LineFault::NoKey))),
    (b"", b"\ngarbage\n", Err((2, LineFault::NoKey))),
    (b"no-pty ", b"\n", Err((1, LineFault::NoKey))),
    (b"@revoked ", b"\n", Err((1, LineFault::NoKey))),
    (b"127.0.0.1 ", b"\n", Err((1, LineFault::NoKey))),
    (b"\"ssh-rsa \" ", b"\n", Err((1, LineFault::NoKey))),
    (b"ssh-ed25519 \n", b"\n", Err((1, LineFault::NoKey))),
    (b"SSHKRL\n", b"\n", Err((1, LineFault::NoKey))),
    (b"", b"#\n", Err((1, LineFault::Base64))),
];

#[test]
fn lines_as_sshd_reads_them(rt: HostRuntime) {
    for (i, (before, after, wanted)) in LISTS.iter().enumerate() {
        let list = joined(rt.alloc(), &[*before, GITHUB_LINE, *after]);
        let list = list.expect(&rt, "there is memory");
        let found = asked(&rt, rt.alloc(), &list, GITHUB_LINE);
        let other = asked(&rt, rt.alloc(), &list, OTHER_LINE);
        let right = match *wanted {
            Ok((this, that)) => found == Ok(this) && other == Ok(that),
            Err((number, fault)) => {
                let cause = KeyCause::Line(fault);
                found == Err(PlainFault::Line { number, cause }) && other == found
            }
        };
        assert!(rt; right, "in case {i}");
    }
}

#[test]
fn a_certificate_is_as_its_plain_key(rt: HostRuntime) {
    let alloc = rt.alloc();
    assert!(rt; asked(&rt, alloc, CERT_LINE, GITHUB_LINE) == Ok(true));
    assert!(rt; asked(&rt, alloc, CERT_LINE, CERT_LINE) == Ok(true));
    assert!(rt; asked(&rt, alloc, CERT_LINE, OTHER_LINE) == Ok(false));
    // The key of its authority, and its plain key.
    assert!(rt; asked(&rt, alloc, OTHER_LINE, CERT_LINE) == Ok(true));
    assert!(rt; asked(&rt, alloc, GITHUB_LINE, CERT_LINE) == Ok(true));
    assert!(rt; asked(&rt, alloc, b"", CERT_LINE) == Ok(false));
}

#[test]
fn a_blob_that_is_no_key(rt: HostRuntime) {
    let list = b"\nssh-ed25519 AAAAC3NzaC1lZDI1NTE5AAAAAA==";
    let cause = KeyCause::Subject(SubjectFault::Key(KeyFault::Length));
    let wanted = Err(PlainFault::Line { number: 2, cause });
    assert!(rt; asked(&rt, rt.alloc(), list, GITHUB_LINE) == wanted);
}

#[test]
fn long_lists(rt: HostRuntime) {
    let alloc = rt.alloc();
    let line = joined(alloc, &[OTHER_LINE, b" c\n"]).expect(&rt, "there is memory");
    let many = repeated(alloc, &line, 2_000).expect(&rt, "there is memory");
    let comment = repeated(alloc, b"x", 300_000).expect(&rt, "there is memory");
    let parts: [&[u8]; 5] = [&many, b"# ", &comment, b"\n", GITHUB_LINE];
    let list = joined(alloc, &parts).expect(&rt, "there is memory");
    assert!(rt; asked(&rt, alloc, &list, GITHUB_LINE) == Ok(true));
    let revoked: Option<Revocations<Held>> = read_plain(alloc, &list).ok();
    let revoked = revoked.expect(&rt, "there is memory");
    let mut keys = revoked.iter_keys();
    assert!(rt; keys.next() == Some(OTHER) && keys.next() == Some(GITHUB));
    assert!(rt; keys.next().is_none());
    let long = vec![in alloc; b'\n'; 67_108_865].expect(&rt, "there is memory");
    assert!(rt; asked(&rt, alloc, &long, GITHUB_LINE) == Err(PlainFault::TooLong));
}
