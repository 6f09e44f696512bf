//! Reading certificates, and the fault of each change of a field.

use crate::tests::parts::{Part, certificate, changed, has_fault};
use ssh_cert::{Cert, CertFault, Role, read_cert};
use ssh_key::Kind;
use test_fixtures::{OTHER, PUBLISHED, strings};

// Whether the numbers are those of the published certificate.
fn has_numbers(cert: &Cert) -> bool {
    cert.serial() == 7
        && cert.role() == Role::User
        && cert.after() == 0
        && cert.before() == u64::MAX
}

// Whether the texts are those of the published certificate.
fn has_texts(cert: &Cert) -> bool {
    cert.nonce().is_empty()
        && cert.key_id() == b"a".as_slice()
        && cert.algorithm() == b"ssh-ed25519".as_slice()
}

// Whether the certificate has no principals, options and extensions.
fn has_no_lists(cert: &Cert) -> bool {
    cert.principals().next().is_none()
        && cert.critical().next().is_none()
        && cert.extensions().next().is_none()
}

// Whether the certificate is for a key with these public fields.
fn has_key(cert: &Cert, fields: &[u8]) -> bool {
    cert.kind() == Kind::Ed25519 && cert.key().bits() == 256 && cert.key().public_fields() == fields
}

// Whether the certificate is by this authority.
fn has_authority(cert: &Cert, authority: &[u8]) -> bool {
    cert.authority() == authority && cert.authority_key().kind() == Kind::Ed25519
}

// Whether the blob is the published certificate, for a key with these public fields and by this
// authority.
fn is_published(blob: &[u8], fields: &[u8], authority: &[u8]) -> bool {
    match read_cert(blob) {
        Ok(cert) => {
            has_numbers(&cert)
                && has_texts(&cert)
                && has_no_lists(&cert)
                && has_key(&cert, fields)
                && has_authority(&cert, authority)
        }
        Err(_) => false,
    }
}

// Reserved fields, which may be any string, and the length of the certificate: one field without
// bytes, and one that is no options.
const RESERVED: [(&[u8], usize); 2] = [(b"\0\0\0\0", 267), (b"\0\0\0\x01a", 268)];

#[test]
fn each_field_is_lent(rt: HostRuntime) {
    let fields = strings(rt.alloc(), &[&PUBLISHED]).expect(&rt, "there is memory");
    for (i, (reserved, length)) in RESERVED.iter().enumerate() {
        let blob = changed(rt.alloc(), Part::Reserved, *reserved).expect(&rt, "there is memory");
        assert!(rt; blob.len() == *length, "in case {i}");
        assert!(rt; is_published(&blob, &fields, OTHER), "in case {i}");
    }
}

// A field, its new bytes, and the fault of the certificate.
const CHANGED: [(Part, &[u8], CertFault); 5] = [
    (Part::Role, &[0, 0, 0, 3], CertFault::CertType),
    (Part::Principals, b"\0\0\0\x01a", CertFault::Principals),
    (
        Part::Critical,
        &[0, 0, 0, 4, 0, 0, 0, 0],
        CertFault::Options,
    ),
    (Part::Signature, &[0; 4], CertFault::Signature),
    (Part::Type, b"\0\0\0\x0bssh-ed25519", CertFault::UnknownType),
];

#[test]
fn changed_fields_have_their_faults(rt: HostRuntime) {
    for (i, (part, field, fault)) in CHANGED.iter().enumerate() {
        let blob = changed(rt.alloc(), *part, *field).expect(&rt, "there is memory");
        assert!(rt; has_fault(&blob, *fault), "in case {i}");
    }
}

#[test]
fn bytes_after_the_signature(rt: HostRuntime) {
    let mut blob = certificate(rt.alloc()).expect(&rt, "there is memory");
    blob.push(0).expect(&rt, "there is memory");
    assert!(rt; has_fault(&blob, CertFault::Trailing));
}
