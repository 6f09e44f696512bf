//! Lines with DSA, which OpenSSH 10.0 refuses and 9.2 reads.

use base64::engine::general_purpose::STANDARD;
use plain_list::{DsaLine, DsaPart, first_dsa_line};
use std::alloc::Global;
use std::process::Abort;
use test_fixtures::{CERT_LINE, GITHUB_LINE, PUBLISHED, joined, repeated, strings};

// A line of this type with this blob.
fn line_of(rt: &impl Abort, alloc: Global, word: &[u8], blob: &[u8]) -> Vec<u8> {
    let text = STANDARD.encode(alloc, blob).expect(rt, "there is memory");
    joined(alloc, &[word, b" ", text.as_bytes(), b"\n"]).expect(rt, "there is memory")
}

// The blob of a DSA key of small numbers.
fn dsa(rt: &impl Abort, alloc: Global) -> Vec<u8> {
    let key = strings(alloc, &[b"ssh-dss", b"\x03", b"\x03", b"\x03", b"\x03"]);
    key.expect(rt, "there is memory")
}

// The line of a certificate of this type by a DSA key, whose own key has these fields.
fn certificate(rt: &impl Abort, alloc: Global, word: &[u8], fields: &[u8]) -> Vec<u8> {
    let front = strings(alloc, &[word, b"nonce"]).expect(rt, "there is memory");
    let named = strings(alloc, &[b"an ID", b""]).expect(rt, "there is memory");
    let authority = dsa(rt, alloc);
    let signature = strings(alloc, &[b"ssh-dss", b"s"]).expect(rt, "there is memory");
    let ending = strings(alloc, &[b"", b"", b"", &authority, &signature]);
    let ending = ending.expect(rt, "there is memory");
    let numbers = b"\0\0\0\0\0\0\0\x05\0\0\0\x01";
    let validity = b"\0\0\0\0\0\0\0\0\xff\xff\xff\xff\xff\xff\xff\xff";
    let blob = joined(alloc, &[&front, fields, numbers, &named, validity, &ending]);
    line_of(rt, alloc, word, &blob.expect(rt, "there is memory"))
}

// Whether the first line with DSA of a list is this one.
fn is_first(alloc: Global, list: &[u8], wanted: Option<(u64, DsaPart)>) -> bool {
    match (first_dsa_line(alloc, list), wanted) {
        (Ok(Some(DsaLine { number, part })), Some(wanted)) => (number, part) == wanted,
        (Ok(None), None) => true,
        _ => false,
    }
}

#[test]
fn lines_with_dsa(rt: HostRuntime) {
    let alloc = rt.alloc();
    let key = line_of(&rt, alloc, b"ssh-dss", &dsa(&rt, alloc));
    let public = strings(alloc, &[&PUBLISHED]).expect(&rt, "there is memory");
    let numbers = strings(alloc, &[b"\x03", b"\x03", b"\x03", b"\x03"]);
    let numbers = numbers.expect(&rt, "there is memory");
    let of_ca = certificate(&rt, alloc, b"ssh-ed25519-cert-v01@openssh.com", &public);
    let of_both = certificate(&rt, alloc, b"ssh-dss-cert-v01@openssh.com", &numbers);
    assert!(rt; is_first(alloc, b"", None));
    assert!(rt; is_first(alloc, GITHUB_LINE, None) && is_first(alloc, CERT_LINE, None));
    assert!(rt; is_first(alloc, &key, Some((1, DsaPart::Key))));
    assert!(rt; is_first(alloc, &of_ca, Some((1, DsaPart::Authority))));
    assert!(rt; is_first(alloc, &of_both, Some((1, DsaPart::Key))));
    let list = joined(alloc, &[b"# c\n\n", GITHUB_LINE, b"\n", &of_ca, &key]);
    let list = list.expect(&rt, "there is memory");
    assert!(rt; is_first(alloc, &list, Some((4, DsaPart::Authority))));
    let behind = joined(alloc, &[b"\0", &key]).expect(&rt, "there is memory");
    assert!(rt; is_first(alloc, &behind, None));
    assert!(rt; DsaPart::Key.words() == "a DSA key");
}

// More lines than any page of memory has.
#[test]
fn many_lines(rt: HostRuntime) {
    let alloc = rt.alloc();
    let key = line_of(&rt, alloc, b"ssh-dss", &dsa(&rt, alloc));
    let lines = repeated(alloc, b"# a comment\n", 10_000).expect(&rt, "there is memory");
    let list = joined(alloc, &[&lines, &key]).expect(&rt, "there is memory");
    assert!(rt; is_first(alloc, &list, Some((10_001, DsaPart::Key))));
}
