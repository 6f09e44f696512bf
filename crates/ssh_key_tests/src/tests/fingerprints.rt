//! The published fingerprint, those of the standards' examples, and parsing fingerprints.

use crate::tests::parts::{has_digits, has_fingerprint};
use key_text::{FingerprintFault, Hash, parse_fingerprint, sha1_of, sha256_of};
use std::alloc::Global;
use std::process::Abort;
use test_fixtures::{GITHUB, GITHUB_PRINT};

// The bytes have this fingerprint.
fn is_printed(rt: &impl Abort, alloc: Global, hash: Hash, bytes: &[u8], text: &[u8]) {
    let right = has_fingerprint(alloc, hash, bytes, text).expect(rt, "there is memory");
    assert!(rt; right, "in case {}", bytes.len());
}

#[test]
fn printed(rt: HostRuntime) {
    is_printed(&rt, rt.alloc(), Hash::Sha256, GITHUB, GITHUB_PRINT);
    let digits = "f83898df0bef57a4ee24985ba598ac17fccb0c0d333cc4af1dd92be14bc23aa5";
    has_digits(&rt, rt.alloc(), &sha256_of(GITHUB), digits);
    let md5 = b"MD5:d4:1d:8c:d9:8f:00:b2:04:e9:80:09:98:ec:f8:42:7e";
    is_printed(&rt, rt.alloc(), Hash::Md5, b"", md5);
    let sha256 = b"SHA256:47DEQpj8HBSa+/TImW+5JCeuQeRkm5NMpJWZG3hSuFU";
    is_printed(&rt, rt.alloc(), Hash::Sha256, b"", sha256);
}

// The examples of FIPS 180 and RFC 1321 with a million times the letter a.
#[test]
fn printed_of_a_million(rt: HostRuntime) {
    let bytes = vec![in rt.alloc(); b'a'; 1_000_000].expect(&rt, "there is memory");
    let sha256 = b"SHA256:zcduXJkU+5KBocfihNc+Z/GAmkiklyAOBG05zMcRLNA";
    is_printed(&rt, rt.alloc(), Hash::Sha256, &bytes, sha256);
    let md5 = b"MD5:77:07:d6:ae:4e:02:7c:70:ee:a2:a9:35:c2:29:6f:21";
    is_printed(&rt, rt.alloc(), Hash::Md5, &bytes, md5);
}

// The examples of FIPS 180 for SHA-1: one block, and two.
#[test]
fn sha1_of_the_standard(rt: HostRuntime) {
    let short = "a9993e364706816aba3e25717850c26c9cd0d89d";
    has_digits(&rt, rt.alloc(), &sha1_of(b"abc"), short);
    let text = b"abcdbcdecdefdefgefghfghighijhijkijkljklmklmnlmnomnopnopq";
    let long = "84983e441c3bd26ebaae4aa1f95129e5e54670f1";
    has_digits(&rt, rt.alloc(), &sha1_of(text), long);
}

#[test]
fn read(rt: HostRuntime) {
    let digest = parse_fingerprint(rt.alloc(), GITHUB_PRINT)
        .ok()
        .expect(&rt, "it is one");
    assert!(rt; digest == sha256_of(GITHUB));
}

const REFUSED: [(&str, FingerprintFault); 6] = [
    ("sha256:AAAA", FingerprintFault::Prefix),
    ("MD5:AAAA", FingerprintFault::Prefix),
    ("SHA256:A", FingerprintFault::Base64),
    ("SHA256:AAB", FingerprintFault::Base64),
    ("SHA256:AAA=", FingerprintFault::Base64),
    ("SHA256:AAAA", FingerprintFault::Length),
];

// Whether the text is reported with this fault.
fn is_refused(alloc: Global, text: &[u8], fault: FingerprintFault) -> bool {
    match parse_fingerprint(alloc, text) {
        Ok(_) => false,
        Err(found) => found == fault,
    }
}

#[test]
fn refused(rt: HostRuntime) {
    for (i, (text, fault)) in REFUSED.iter().enumerate() {
        assert!(rt;
            is_refused(rt.alloc(), text.as_bytes(), *fault),
            "in case {i}"
        );
    }
    let mut long = vec![in rt.alloc(); b'A'; 100_007].expect(&rt, "there is memory");
    long[..7].copy_from_slice(b"SHA256:");
    assert!(rt; is_refused(rt.alloc(), &long, FingerprintFault::Length));
}
