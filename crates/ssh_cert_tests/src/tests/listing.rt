//! The listing of a certificate, and instants as they are printed.

use crate::tests::parts::{Part, changed, with};
use cert_listing::{list_cert, time_text};
use key_text::Hash;
use ssh_cert::{push_escaped, read_cert};
use std::alloc::{AllocError, Global};
use test_fixtures::{PUBLISHED, joined, repeated, strings};

// The listing of the blob's certificate at the moment 0.
fn listing(alloc: Global, blob: &[u8], hash: Hash) -> Option<Vec<u8>> {
    match read_cert(blob) {
        Ok(cert) => list_cert(alloc, &cert, hash, 0).ok(),
        Err(_) => None,
    }
}

// The listing of the certificate of the published key by itself.
const PLAIN: &str = "        Type: ssh-ed25519-cert-v01@openssh.com user certificate\n\
     \x20       Public key: ED25519-CERT SHA256:+DiY3wvvV6TuJJhbpZisF/zLDA0zPMSvHdkr4UvCOqU\n\
     \x20       Signing CA: ED25519 SHA256:+DiY3wvvV6TuJJhbpZisF/zLDA0zPMSvHdkr4UvCOqU \
     (using ssh-ed25519)\n\
     \x20       Key ID: \"a\"\n\
     \x20       Serial: 7\n\
     \x20       Valid: forever\n\
     \x20       Valid now: yes\n\
     \x20       Principals: (none)\n\
     \x20       Critical Options: (none)\n\
     \x20       Extensions: (none)\n";

#[test]
fn a_plain_listing(rt: HostRuntime) {
    let authority = [b"ssh-ed25519".as_slice(), &PUBLISHED];
    let blob = with(rt.alloc(), Part::Authority, &authority).expect(&rt, "there is memory");
    assert!(rt; blob.len() == 267);
    let text = listing(rt.alloc(), &blob, Hash::Sha256).expect(&rt, "the blob is a certificate");
    assert!(rt; text.as_slice() == PLAIN.as_bytes());
}

// A hash, a field of the certificate and its strings, and the last lines of the listing.
type Listed<'a> = (Hash, Part, &'a [&'a [u8]], &'a str);

const LISTED: [Listed<'static>; 4] = [
    (
        Hash::Md5,
        Part::Critical,
        &[b"force-command", b"\0\0\0\x02id"],
        "        Principals: (none)\n\
         \x20       Critical Options:\n\
         \x20               force-command id\n\
         \x20       Extensions: (none)\n",
    ),
    (
        Hash::Md5,
        Part::Critical,
        &[b"force-command", &[0xff]],
        "        Critical Options:\n\
         \x20               force-command hex:ff\n\
         \x20       Extensions: (none)\n",
    ),
    (
        Hash::Md5,
        Part::Extensions,
        &[b"permit-pty", b"", b"a\x1b", b"\x07"],
        "        Extensions:\n                permit-pty\n                a\\x1b hex:07\n",
    ),
    (
        Hash::Sha256,
        Part::Principals,
        &[b"root"],
        "        Principals:\n\
         \x20               root\n\
         \x20       Critical Options: (none)\n\
         \x20       Extensions: (none)\n",
    ),
];

// Whether the listing of the blob's certificate ends with these lines.
fn lists(alloc: Global, blob: &[u8], hash: Hash, lines: &[u8]) -> bool {
    match listing(alloc, blob, hash) {
        Some(text) => text.as_slice().ends_with(lines),
        None => false,
    }
}

#[test]
fn principals_options_and_extensions_are_listed(rt: HostRuntime) {
    for (i, (hash, part, strings, lines)) in LISTED.iter().enumerate() {
        let blob = with(rt.alloc(), *part, *strings).expect(&rt, "there is memory");
        assert!(rt;
            lists(rt.alloc(), &blob, *hash, lines.as_bytes()),
            "in case {i}"
        );
    }
}

// Whether a certificate is listed with all of its principals of `size` letters, `size` principals
// of one letter, and extensions with names and data of that length.
fn lists_long(alloc: Global, size: usize) -> Result<bool, AllocError> {
    let long = vec![in alloc; b'a'; size]?;
    let first = strings(alloc, &[&long])?;
    let more = repeated(alloc, b"\0\0\0\x01b", size)?;
    let names = joined(alloc, &[&first, &more])?;
    let field = strings(alloc, &[&names])?;
    let blob = changed(alloc, Part::Principals, &field)?;
    let shown = repeated(alloc, b"\n                b", size)?;
    let front = b"        Principals:\n                ";
    let lines = joined(alloc, &[front, &long, &shown, NO_OPTIONS])?;
    let are = lists(alloc, &blob, Hash::Md5, &lines);
    let blob = with(alloc, Part::Extensions, &[&long, &long])?;
    let digits = repeated(alloc, b"61", size)?;
    let front = b"        Extensions:\n                ";
    let lines = joined(alloc, &[front, &long, b" hex:", &digits, b"\n"])?;
    Ok(are && lists(alloc, &blob, Hash::Md5, &lines))
}

const NO_OPTIONS: &[u8] = b"\n        Critical Options: (none)\n        Extensions: (none)\n";

#[test]
fn long_principals_and_extensions_are_listed(rt: HostRuntime) {
    for size in [1_025, 4_097, 70_001] {
        let right = lists_long(rt.alloc(), size).expect(&rt, "there is memory");
        assert!(rt; right, "in case {size}");
    }
}

// A time of the certificate, its seconds, and the lines for it in the listing.
const TIMES: [(Part, u64, &str); 3] = [
    (
        Part::Before,
        253_370_764_800,
        "Valid: before @253370764800\n        Valid now: yes\n",
    ),
    (
        Part::Before,
        253_370_764_799,
        "Valid: before 9998-12-31T23:59:59Z\n        Valid now: yes\n",
    ),
    (
        Part::After,
        1_600_000_000,
        "Valid: after 2020-09-13T12:26:40Z\n        Valid now: no\n",
    ),
];

// The lines after these.
const NO_LISTS: &[u8] = b"        Principals: (none)\n\
     \x20       Critical Options: (none)\n\
     \x20       Extensions: (none)\n";

#[test]
fn times_are_listed(rt: HostRuntime) {
    for (i, (part, seconds, lines)) in TIMES.iter().enumerate() {
        let blob = changed(rt.alloc(), *part, &seconds.to_be_bytes()).expect(
            &rt,
            "there is memory",
        );
        let lines = joined(rt.alloc(), &[lines.as_bytes(), NO_LISTS]).expect(
            &rt,
            "there is memory",
        );
        assert!(rt;
            lists(rt.alloc(), &blob, Hash::Sha256, &lines),
            "in case {i}"
        );
    }
}

const INSTANTS: [(u64, &str); 5] = [
    (0, "1970-01-01T00:00:00Z"),
    (951_782_400, "2000-02-29T00:00:00Z"),
    (253_370_764_799, "9998-12-31T23:59:59Z"),
    (253_370_764_800, "@253370764800"),
    (u64::MAX, "@18446744073709551615"),
];

#[test]
fn instants_as_they_are_printed(rt: HostRuntime) {
    for (i, (seconds, wanted)) in INSTANTS.iter().enumerate() {
        let text = time_text(rt.alloc(), *seconds).expect(&rt, "there is memory");
        assert!(rt; text.as_slice() == wanted.as_bytes(), "in case {i}");
    }
}

#[test]
fn bytes_that_a_terminal_obeys(rt: HostRuntime) {
    let mut out = Vec::new(rt.alloc());
    push_escaped(&mut out, b"a\x1b\x7f \xe9\n").expect(&rt, "there is memory");
    assert!(rt; out.as_slice() == b"a\\x1b\\x7f \xe9\\x0a".as_slice());
}
