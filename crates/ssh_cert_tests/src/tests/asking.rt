//! The subjects of blobs.

use crate::tests::parts::{Part, certificate, changed};
use ssh_cert::{CertFault, SubjectFault, subject};
use ssh_key::KeyFault;
use ssh_wire::WireFault;
use std::alloc::{AllocError, Global};
use test_fixtures::{GITHUB, OTHER, strings};

// Whether the subject of the blob has this plain key, and the names of the published certificate by
// this authority, or no names if none is given.
fn is_asked(alloc: Global, blob: &[u8], plain: &[u8], authority: Option<&[u8]>) -> bool {
    let Ok(asked) = subject(alloc, blob) else {
        return false;
    };
    let has_names = match (&asked.cert, authority) {
        (Some(names), Some(authority)) => {
            names.serial == 7 && names.key_id == b"a".as_slice() && names.authority == authority
        }
        (None, None) => true,
        _ => false,
    };
    has_names && asked.plain.as_slice() == plain
}

#[test]
fn a_key_is_asked_by_its_blob_and_a_certificate_by_its_key_and_its_authority(rt: HostRuntime) {
    let blob = certificate(rt.alloc()).expect(&rt, "there is memory");
    assert!(rt; is_asked(rt.alloc(), GITHUB, GITHUB, None));
    assert!(rt; is_asked(rt.alloc(), &blob, GITHUB, Some(OTHER)));
}

// The blob of a key of at least this many bytes.
fn long_key(alloc: Global, size: usize) -> Result<Vec<u8>, AllocError> {
    let modulus = vec![in alloc; 0x55; size]?;
    strings(alloc, &[b"ssh-rsa", &[3], &modulus])
}

#[test]
fn long_keys_and_certificates_are_asked(rt: HostRuntime) {
    let key = long_key(rt.alloc(), 60_000).expect(&rt, "there is memory");
    assert!(rt; is_asked(rt.alloc(), &key, &key, None));
    let nonce = vec![in rt.alloc(); 0x5a; 70_000].expect(&rt, "there is memory");
    let nonce = strings(rt.alloc(), &[&nonce]).expect(&rt, "there is memory");
    let blob = changed(rt.alloc(), Part::Nonce, &nonce).expect(&rt, "there is memory");
    assert!(rt; is_asked(rt.alloc(), &blob, GITHUB, Some(OTHER)));
}

// Whether the blob has no subject, for this fault.
fn refuses(alloc: Global, blob: &[u8], fault: SubjectFault) -> bool {
    match subject(alloc, blob) {
        Ok(_) => false,
        Err(found) => found == fault,
    }
}

const SHORT: KeyFault = KeyFault::Wire(WireFault::Short);

// The number of bytes left of the certificate, and the fault.
const FRONTS: [(usize, SubjectFault); 4] = [
    (0, SubjectFault::Key(SHORT)),
    (20, SubjectFault::Key(SHORT)),
    (60, SubjectFault::Cert(CertFault::Key(SHORT))),
    (100, SubjectFault::Cert(CertFault::Wire)),
];

#[test]
fn faults_are_those_of_keys_or_of_certificates(rt: HostRuntime) {
    let blob = certificate(rt.alloc()).expect(&rt, "there is memory");
    for (size, fault) in &FRONTS {
        let front = blob.get(..*size).expect(&rt, "the certificate is longer");
        assert!(rt; refuses(rt.alloc(), front, *fault), "in case {}", *size);
    }
}
