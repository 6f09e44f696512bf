//! RSA and DSA keys of each size, and a point that is on no curve.

use crate::tests::lists::asked;
use base64::engine::general_purpose::STANDARD;
use plain_list::{KeyCause, PlainFault};
use ssh_cert::SubjectFault;
use ssh_key::KeyFault;
use std::alloc::Global;
use std::process::Abort;
use test_fixtures::{GITHUB_LINE, joined, strings};

// A number of this many bytes, the first of which is `first`. A zero byte before it keeps the
// number from being negative.
fn number(rt: &impl Abort, alloc: Global, first: u8, size: usize) -> Vec<u8> {
    let rest = vec![in alloc; 0x55; size.saturating_sub(1)].expect(rt, "there is memory");
    let head = [first];
    let bytes = joined(alloc, &[&head, &rest]).expect(rt, "there is memory");
    if first < 128 {
        return bytes;
    }
    joined(alloc, &[b"\0", &bytes]).expect(rt, "there is memory")
}

// A key line with the key of these fields.
fn key_line(rt: &impl Abort, alloc: Global, word: &[u8], fields: &[&[u8]]) -> Vec<u8> {
    let name = strings(alloc, &[word]).expect(rt, "there is memory");
    let fields = strings(alloc, fields).expect(rt, "there is memory");
    let blob = joined(alloc, &[&name, &fields]).expect(rt, "there is memory");
    let text = STANDARD.encode(alloc, &blob).expect(rt, "there is memory");
    joined(alloc, &[word, b" ", text.as_bytes()]).expect(rt, "there is memory")
}

// Whether a list of a line and of the published key revokes both, or why it is refused.
fn revokes(rt: &impl Abort, alloc: Global, line: &[u8]) -> Result<(bool, bool), PlainFault> {
    let list = joined(alloc, &[line, b"\n", GITHUB_LINE]).expect(rt, "there is memory");
    let first = asked(rt, alloc, &list, line)?;
    let second = asked(rt, alloc, &list, GITHUB_LINE)?;
    Ok((first, second))
}

// The first byte of the modulus, its number of bytes, and whether the key is skipped, revoked or
// refused.
const SIZES: [(u8, usize, Option<bool>); 4] = [
    (0x7f, 128, Some(false)),
    (0x80, 128, Some(true)),
    (0xff, 2_048, Some(true)),
    (0x01, 2_049, None),
];

#[test]
fn keys_of_each_size(rt: HostRuntime) {
    let alloc = rt.alloc();
    let cause = KeyCause::Subject(SubjectFault::Key(KeyFault::TooLong));
    let refused = PlainFault::Line { number: 1, cause };
    for (i, (first, size, wanted)) in SIZES.iter().enumerate() {
        let modulus = number(&rt, alloc, *first, *size);
        let rsa = key_line(&rt, alloc, b"ssh-rsa", &[b"\x01\0\x01", &modulus]);
        let dsa = key_line(
            &rt,
            alloc,
            b"ssh-dss",
            &[&modulus, b"\x03", b"\x02", b"\x05"],
        );
        let wanted = wanted.ok_or(refused);
        let of_rsa = wanted.map(|revoked| (revoked, true));
        let of_dsa = wanted.map(|_| (true, true));
        assert!(rt; revokes(&rt, alloc, &rsa) == of_rsa, "RSA in case {i}");
        assert!(rt; revokes(&rt, alloc, &dsa) == of_dsa, "DSA in case {i}");
    }
}

#[test]
fn keys_that_sshd_refuses(rt: HostRuntime) {
    let alloc = rt.alloc();
    let long = number(&rt, alloc, 1, 2_049);
    let short = number(&rt, alloc, 1, 100);
    let rsa = key_line(&rt, alloc, b"ssh-rsa", &[&long, &short]);
    let dsa = key_line(&rt, alloc, b"ssh-dss", &[b"\x03", b"\x03", b"\x03", &long]);
    let ecdsa = key_line(&rt, alloc, b"ecdsa-sha2-nistp256", &[b"nistp256", &[4; 65]]);
    let too_long = Err(refused(KeyFault::TooLong));
    assert!(rt; revokes(&rt, alloc, &rsa) == too_long, "an exponent");
    assert!(rt;
        revokes(&rt, alloc, &dsa) == too_long,
        "the last number of DSA"
    );
    assert!(rt;
        revokes(&rt, alloc, &ecdsa) == Err(refused(KeyFault::Point)),
        "a point"
    );
}

// The refusal of the first line for a fault of its key.
fn refused(fault: KeyFault) -> PlainFault {
    let cause = KeyCause::Subject(SubjectFault::Key(fault));
    PlainFault::Line { number: 1, cause }
}
