//! Lists that OpenSSH's ssh-keygen 9.2p1 refuses, or reads as other names, and lists like them that
//! it reads.

use crate::tests::made::certificates;
use byte_streams::FromRead;
use krl_core::read_krl;
use krl_openssh::{Difference, first_difference};
use span_sets::Held;
use std::alloc::Global;
use std::process::Abort;
use test_fixtures::{
    BITMAP, FIVE, GITHUB, HEADER, ID_A, KEY_SECTION, SHA256_SECTION, joined, list_of, repeated,
    strings,
};

// Whether a list is read and has this difference.
fn differs(alloc: Global, list: &[u8], wanted: Option<Difference>) -> bool {
    let (read, _reader) = read_krl::<Held, _>(alloc, FromRead::new(list));
    match read {
        Ok(_) => first_difference(list) == wanted,
        Err(_) => false,
    }
}

// Subsections of an authority's section, by their type.
const SUBSECTIONS: [(u8, &[u8], Option<Difference>); 13] = [
    (0x20, b"", None),
    (0x20, b"\0\0\0\0\0\0\0\x01", None),
    (
        0x20,
        b"\0\0\0\0\0\0\0\x01\0\0\0\0\0\0\0\0",
        Some(Difference::SerialZero),
    ),
    (
        0x21,
        b"\0\0\0\0\0\0\0\x01\xff\xff\xff\xff\xff\xff\xff\xff",
        None,
    ),
    (
        0x21,
        b"\0\0\0\0\0\0\0\0\0\0\0\0\0\0\0\x05",
        Some(Difference::SerialZero),
    ),
    (0x22, b"\0\0\0\0\0\0\0\0\0\0\0\x01\x02", None),
    (0x22, b"\0\0\0\0\0\0\0\x01\0\0\0\x01\x01", None),
    (
        0x22,
        b"\0\0\0\0\0\0\0\0\0\0\0\x02\x02\x03",
        Some(Difference::SerialZero),
    ),
    (0x23, b"\0\0\0\0", None),
    (0x23, b"\0\0\0\x02\xff\x01", None),
    (0x23, b"\0\0\0\x02a\0", Some(Difference::KeyId)),
    (0x23, b"\0\0\0\x01b\0\0\0\x02\0a", Some(Difference::KeyId)),
    (0x39, b"\0\0\0\x01n\0\0\0\0\0", Some(Difference::Extension)),
];

#[test]
fn subsections(rt: HostRuntime) {
    for (i, (type_byte, content, wanted)) in SUBSECTIONS.iter().enumerate() {
        let list = certificates(&rt, rt.alloc(), GITHUB, *type_byte, *content);
        assert!(rt; differs(rt.alloc(), &list, *wanted), "subsection {i}");
    }
}

// How a bitmap of 2,048 or 2,049 bytes begins.
const BITMAPS: [(&[u8], usize, Option<Difference>); 5] = [
    (b"\0\0\x08\0", 2_048, None),
    (b"\0\0\x08\x01\0", 2_048, None),
    (b"\0\0\x08\x01", 2_049, Some(Difference::LongBitmap)),
    (b"\0\0\x08\x01\0\0", 2_047, None),
    (b"\0\0\x08\x02\0\0", 2_048, Some(Difference::LongBitmap)),
];

// A list of a bitmap that begins so, with this many bytes 1 after it.
fn bitmap(rt: &impl Abort, alloc: Global, front: &[u8], ones: usize) -> Vec<u8> {
    let ones = repeated(alloc, b"\x01", ones).expect(rt, "there is memory");
    let content = joined(alloc, &[b"\0\0\0\0\0\0\0\x05", front, &ones]);
    let content = content.expect(rt, "there is memory");
    certificates(rt, alloc, b"", 0x22, &content)
}

#[test]
fn long_bitmaps(rt: HostRuntime) {
    for (i, (front, ones, wanted)) in BITMAPS.iter().enumerate() {
        let list = bitmap(&rt, rt.alloc(), *front, *ones);
        assert!(rt; differs(rt.alloc(), &list, *wanted), "bitmap {i}");
    }
}

// Authorities that are no keys, or keys in another spelling.
const AUTHORITIES: [(&[u8], Option<Difference>); 4] = [
    (b"", None),
    (b"abc", Some(Difference::Authority)),
    (
        b"\0\0\0\x1ask-ssh-ed25519@openssh.com\0\0\0\x20abcdefghijklmnopabcdefghijklmnop\
\0\0\0\x04ssh:",
        None,
    ),
    (
        b"\0\0\0\x1ask-ssh-ed25519@openssh.com\0\0\0\x20abcdefghijklmnopabcdefghijklmnop\
\0\0\0\x05ssh:\0",
        Some(Difference::Authority),
    ),
];

#[test]
fn authorities(rt: HostRuntime) {
    for (i, (authority, wanted)) in AUTHORITIES.iter().enumerate() {
        let list = certificates(&rt, rt.alloc(), *authority, 0x20, b"\0\0\0\0\0\0\0\x01");
        assert!(rt; differs(rt.alloc(), &list, *wanted), "authority {i}");
    }
}

// The first byte of an RSA modulus, how many bytes follow, and the modulus' length.
const MODULI: [(&[u8], usize, Option<Difference>); 4] = [
    (b"\0\0\0\x80\x7f", 127, Some(Difference::KeySize)),
    (b"\0\0\0\x81\0\x80", 127, None),
    (b"\0\0\x08\x01\0\x80", 2_047, None),
    (b"\0\0\x08\x01\x01", 2_048, Some(Difference::KeySize)),
];

// A list of an authority whose RSA modulus begins so, with this many bytes 1 after it.
fn rsa_authority(rt: &impl Abort, alloc: Global, front: &[u8], ones: usize) -> Vec<u8> {
    let ones = repeated(alloc, b"\x01", ones).expect(rt, "there is memory");
    let key = joined(
        alloc,
        &[b"\0\0\0\x07ssh-rsa\0\0\0\x03\x01\0\x01", front, &ones],
    );
    let key = key.expect(rt, "there is memory");
    certificates(rt, alloc, &key, 0x20, b"\0\0\0\0\0\0\0\x01")
}

#[test]
fn sizes_of_rsa_keys(rt: HostRuntime) {
    for (i, (front, ones, wanted)) in MODULI.iter().enumerate() {
        let list = rsa_authority(&rt, rt.alloc(), *front, *ones);
        assert!(rt; differs(rt.alloc(), &list, *wanted), "modulus {i}");
    }
}

// Authorities with a long exponent, and with a point that is on no curve, since each of its bytes
// is 4.
#[test]
fn keys_that_openssh_refuses(rt: HostRuntime) {
    let alloc = rt.alloc();
    let exponent = repeated(alloc, b"\x01", 2_049).expect(&rt, "there is memory");
    let modulus = repeated(alloc, b"\x7f", 129).expect(&rt, "there is memory");
    let point = repeated(alloc, b"\x04", 65).expect(&rt, "there is memory");
    let rsa = strings(alloc, &[b"ssh-rsa", &exponent, &modulus]).expect(&rt, "there is memory");
    let ecdsa = strings(alloc, &[b"ecdsa-sha2-nistp256", b"nistp256", &point]);
    let ecdsa = ecdsa.expect(&rt, "there is memory");
    let serial = b"\0\0\0\0\0\0\0\x01";
    let of_rsa = certificates(&rt, alloc, &rsa, 0x20, serial);
    let of_ecdsa = certificates(&rt, alloc, &ecdsa, 0x20, serial);
    assert!(rt; differs(alloc, &of_rsa, Some(Difference::KeySize)));
    assert!(rt; differs(alloc, &of_ecdsa, Some(Difference::Point)));
}

// A DSA key is refused by its size before its kind, which OpenSSH 9.2 reads.
#[test]
fn dsa_authorities(rt: HostRuntime) {
    let alloc = rt.alloc();
    let long = repeated(alloc, b"\x01", 2_049).expect(&rt, "there is memory");
    let serial = b"\0\0\0\0\0\0\0\x01";
    let short = strings(alloc, &[b"ssh-dss", b"\x03", b"\x03", b"\x03", b"\x03"]);
    let short = short.expect(&rt, "there is memory");
    let long = strings(alloc, &[b"ssh-dss", b"\x03", b"\x03", b"\x03", &long]);
    let long = long.expect(&rt, "there is memory");
    let of_short = certificates(&rt, alloc, &short, 0x20, serial);
    let of_long = certificates(&rt, alloc, &long, 0x20, serial);
    assert!(rt; differs(alloc, &of_short, Some(Difference::Dsa)));
    assert!(rt; differs(alloc, &of_long, Some(Difference::KeySize)));
}

// Comments.
const COMMENTS: [(&[u8], Option<Difference>); 5] = [
    (b"", None),
    (b"made by hand", None),
    (b"a\0", None),
    (b"\0", None),
    (b"a\0\0", Some(Difference::Comment)),
];

#[test]
fn comments(rt: HostRuntime) {
    for (i, (comment, wanted)) in COMMENTS.iter().enumerate() {
        let comment = strings(rt.alloc(), &[*comment]).expect(&rt, "there is memory");
        let list = joined(rt.alloc(), &[&HEADER[..40], &comment]).expect(&rt, "there is memory");
        assert!(rt; differs(rt.alloc(), &list, *wanted), "comment {i}");
    }
}

// Sections after the header, as many as there are.
const SECTIONS: [(&[u8], Option<Difference>); 8] = [
    (b"", None),
    (FIVE, None),
    (BITMAP, None),
    (ID_A, None),
    (KEY_SECTION, None),
    (SHA256_SECTION, None),
    (
        b"\xff\0\0\0\x0a\0\0\0\x01n\0\0\0\0\0",
        Some(Difference::Extension),
    ),
    (b"\x04\0\0\0\0\0\0\0\0", Some(Difference::Signature)),
];

#[test]
fn sections(rt: HostRuntime) {
    for (i, (section, wanted)) in SECTIONS.iter().enumerate() {
        let list = list_of(rt.alloc(), *section).expect(&rt, "there is memory");
        assert!(rt; differs(rt.alloc(), &list, *wanted), "section {i}");
    }
}

// More fields than any page of memory has.
#[test]
fn many_serials(rt: HostRuntime) {
    let numbers = repeated(rt.alloc(), b"\0\0\0\0\0\0\0\x07", 100_000).expect(
        &rt,
        "there is memory",
    );
    let list = certificates(&rt, rt.alloc(), b"", 0x20, &numbers);
    assert!(rt; differs(rt.alloc(), &list, None));
}
