//! Keys, certificates and fingerprints.

use crate::tests::answered::answered;
use crate::tests::parts::blob_of;
use cert_listing::{list_cert, time_text};
use key_text::{
    FingerprintFault, Hash, LineFault, PrivateFault, fingerprint, parse_fingerprint, read_line,
    read_private, read_public_half, sha256_of,
};
use ssh_cert::{SubjectFault, read_cert, subject};
use ssh_key::{plain_blob, read_key};
use std::alloc::AllocError;
use std::process::Abort;
use test_fixtures::{CERT_LINE, CONTAINER, GITHUB_LINE, GITHUB_PRINT, joined};

#[test]
fn a_line(rt: HostRuntime) {
    let Some(text) = answered(&rt, joined(rt.alloc(), &[GITHUB_LINE, b" a b"]), AllocError) else {
        return;
    };
    let Some(line) = answered(&rt, read_line(rt.alloc(), &text), LineFault::NoMemory) else {
        return;
    };
    assert!(rt; line.word == b"ssh-ed25519".as_slice() && line.comment == b"a b".as_slice());
    assert!(rt; line.blob.as_slice().len() == 51);
}

#[test]
fn a_private_key(rt: HostRuntime) {
    let read = read_private(rt.alloc(), CONTAINER);
    let Some(private) = answered(&rt, read, PrivateFault::NoMemory) else {
        return;
    };
    assert!(rt; private.comment.as_slice() == b"a".as_slice());
    assert!(rt; private.blob.as_slice().len() == 51);
}

#[test]
fn the_public_half_of_a_private_key(rt: HostRuntime) {
    let read = read_public_half(rt.alloc(), CONTAINER);
    if let Some(blob) = answered(&rt, read, PrivateFault::NoMemory) {
        assert!(rt; blob.as_slice().len() == 51);
    }
}

// The fingerprint of the blob is this one.
fn is_printed(rt: &(impl AllocGlobal + Abort + Print), blob: &[u8], hash: Hash, text: &[u8]) {
    if let Some(print) = answered(rt, fingerprint(rt.alloc(), hash, blob), AllocError) {
        assert!(rt; print.as_slice() == text);
    }
}

#[test]
fn a_fingerprint(rt: HostRuntime) {
    if let Some(blob) = blob_of(&rt, GITHUB_LINE) {
        is_printed(&rt, blob.as_slice(), Hash::Sha256, GITHUB_PRINT);
    }
    let md5 = b"MD5:d4:1d:8c:d9:8f:00:b2:04:e9:80:09:98:ec:f8:42:7e";
    is_printed(&rt, b"", Hash::Md5, md5);
}

#[test]
fn a_fingerprint_that_is_read(rt: HostRuntime) {
    let read = parse_fingerprint(rt.alloc(), GITHUB_PRINT);
    if let Some(digest) = answered(&rt, read, FingerprintFault::NoMemory) {
        assert!(rt; digest[0] == 0xf8 && digest[31] == 0xa5);
    }
}

#[test]
fn a_blob(rt: HostRuntime) {
    let Some(blob) = blob_of(&rt, GITHUB_LINE) else {
        return;
    };
    let key = read_key(blob.as_slice())
        .ok()
        .expect(&rt, "the blob is a key");
    if let Some(made) = answered(&rt, plain_blob(rt.alloc(), &key), AllocError) {
        assert!(rt; made.as_slice() == blob.as_slice());
    }
}

#[test]
fn a_subject(rt: HostRuntime) {
    let Some(blob) = blob_of(&rt, CERT_LINE) else {
        return;
    };
    let asked = subject(rt.alloc(), blob.as_slice());
    let Some(asked) = answered(&rt, asked, SubjectFault::NoMemory) else {
        return;
    };
    let digest = sha256_of(asked.plain.as_slice());
    assert!(rt; digest[0] == 0xf8 && digest[31] == 0xa5);
    let names = asked.cert.expect(&rt, "it is of a certificate");
    assert!(rt; names.serial == 7 && names.key_id == b"a".as_slice());
}

const LISTING: &[u8] = b"        Type: ssh-ed25519-cert-v01@openssh.com user certificate\n\
\x20       Public key: ED25519-CERT SHA256:+DiY3wvvV6TuJJhbpZisF/zLDA0zPMSvHdkr4UvCOqU\n\
\x20       Signing CA: ED25519 SHA256:";

#[test]
fn a_listing(rt: HostRuntime) {
    let Some(blob) = blob_of(&rt, CERT_LINE) else {
        return;
    };
    let cert = read_cert(blob.as_slice())
        .ok()
        .expect(&rt, "the blob is a certificate");
    let listed = list_cert(rt.alloc(), &cert, Hash::Sha256, 0);
    if let Some(text) = answered(&rt, listed, AllocError) {
        assert!(rt; text.starts_with(LISTING) && text.ends_with(b"Extensions: (none)\n"));
    }
}

#[test]
fn a_time(rt: HostRuntime) {
    if let Some(text) = answered(&rt, time_text(rt.alloc(), 951_782_400), AllocError) {
        assert!(rt; text.as_slice() == b"2000-02-29T00:00:00Z".as_slice());
    }
}
