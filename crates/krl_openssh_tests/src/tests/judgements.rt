//! Keys, and what OpenSSH 9.2p1 answered about a list of an authority with the key.

use openssh_keys::{Judgement, judge};
use ssh_key::read_key;
use std::alloc::Global;
use std::process::Abort;
use test_fixtures::{joined, repeated, strings};

// A number above zero of this many bits.
fn number(rt: &impl Abort, alloc: Global, bits: usize) -> Vec<u8> {
    let first = [if bits % 8 == 0 {
        0
    } else {
        1 << (bits % 8 - 1)
    }];
    let rest = repeated(alloc, b"\x81", bits / 8).expect(rt, "there is memory");
    joined(alloc, &[&first, &rest]).expect(rt, "there is memory")
}

// Judges a key of this type whose numbers have these sizes in bits.
fn judged(rt: &impl Abort, alloc: Global, name: &[u8], sizes: &[usize]) -> Judgement {
    let mut blob = strings(alloc, &[name]).expect(rt, "there is memory");
    for bits in sizes.iter() {
        let field = strings(alloc, &[&number(rt, alloc, *bits)]).expect(rt, "there is memory");
        blob = joined(alloc, &[&blob, &field]).expect(rt, "there is memory");
    }
    let key = read_key(&blob).expect(rt, "it is a key");
    judge(&key)
}

// The bits of the exponent and of the modulus.
const RSA_KEYS: [([usize; 2], Judgement); 8] = [
    ([17, 1_023], Judgement::Short),
    ([17, 1_024], Judgement::Accepted),
    ([17, 16_384], Judgement::Accepted),
    ([17, 16_385], Judgement::Long),
    ([2, 2_048], Judgement::Accepted),
    ([16_384, 2_048], Judgement::Accepted),
    ([16_385, 2_048], Judgement::Long),
    ([16_385, 512], Judgement::Long),
];

#[test]
fn keys_of_rsa(rt: HostRuntime) {
    for (i, (sizes, wanted)) in RSA_KEYS.iter().enumerate() {
        let found = judged(&rt, rt.alloc(), b"ssh-rsa", sizes);
        assert!(rt; found == *wanted, "key {i}");
    }
}

// The bits of p, q, g and y.
const DSA_KEYS: [([usize; 4], Judgement); 9] = [
    ([1_024, 160, 1_000, 1_000], Judgement::Accepted),
    ([1, 1, 1, 1], Judgement::Accepted),
    ([16_384, 16_384, 16_384, 16_384], Judgement::Accepted),
    ([16_385, 160, 1_000, 1_000], Judgement::Long),
    ([1_024, 16_385, 1_000, 1_000], Judgement::Long),
    ([1_024, 160, 16_385, 1_000], Judgement::Long),
    ([1_024, 160, 1_000, 16_385], Judgement::Long),
    ([1_024, 160, 1_000, 100_000], Judgement::Long),
    ([1, 1, 1, 16_385], Judgement::Long),
];

#[test]
fn keys_of_dsa(rt: HostRuntime) {
    for (i, (sizes, wanted)) in DSA_KEYS.iter().enumerate() {
        let found = judged(&rt, rt.alloc(), b"ssh-dss", sizes);
        assert!(rt; found == *wanted, "key {i}");
    }
}

// The names of the type and of the curve, the size of a point, and what follows it. All bytes of
// the point are 4: it is on no curve.
const CURVES: [(&[u8], &[u8], usize, &[u8]); 4] = [
    (b"ecdsa-sha2-nistp256", b"nistp256", 65, b""),
    (b"ecdsa-sha2-nistp384", b"nistp384", 97, b""),
    (b"ecdsa-sha2-nistp521", b"nistp521", 133, b""),
    (
        b"sk-ecdsa-sha2-nistp256@openssh.com",
        b"nistp256",
        65,
        b"\0\0\0\x04ssh:",
    ),
];

// Judges a key of these first strings, a point whose bytes are all 4, and the bytes after it.
fn of_fours(rt: &impl Abort, alloc: Global, front: &[u8], size: usize, after: &[u8]) -> Judgement {
    let point = repeated(alloc, b"\x04", size).expect(rt, "there is memory");
    let point = strings(alloc, &[&point]).expect(rt, "there is memory");
    let blob = joined(alloc, &[front, &point, after]).expect(rt, "there is memory");
    let key = read_key(&blob).expect(rt, "it is a key");
    judge(&key)
}

#[test]
fn points_on_no_curve(rt: HostRuntime) {
    for (name, curve, size, after) in CURVES.iter() {
        let front = strings(rt.alloc(), &[*name, *curve]).expect(&rt, "there is memory");
        let found = of_fours(&rt, rt.alloc(), &front, *size, *after);
        assert!(rt; found == Judgement::Point, "{size} bytes");
    }
}
