//! Certificates made from their parts.

use ssh_cert::{CertFault, read_cert};
use std::alloc::{AllocError, Global};
use test_fixtures::strings;

/// A field of the certificate that the tests change, in the order of the format.
#[derive(Clone, Copy, PartialEq, Eq)]
pub enum Part {
    Type,
    Nonce,
    Public,
    Serial,
    Role,
    KeyId,
    Principals,
    After,
    Before,
    Critical,
    Extensions,
    Reserved,
    Authority,
    Signature,
}

// The certificate of the published key by the authority, for a user, with the serial number 7 and
// the key ID `a`, valid forever, with no principals, options or extensions: the bytes of each
// field.
const FIELDS: [(Part, &[u8]); 14] = [
    (Part::Type, b"\0\0\0\x20ssh-ed25519-cert-v01@openssh.com"),
    (Part::Nonce, b"\0\0\0\0"),
    (
        Part::Public,
        b"\0\0\0\x20\xe3\x2a\xaa\x79\x15\xce\xb9\xb4\x49\xd1\xba\x50\xea\x2a\x28\xbb\
          \x1a\x6e\x01\xf9\x0b\xda\x24\x5a\x2d\x1d\x87\x69\x7d\x18\xa2\x65",
    ),
    (Part::Serial, &[0, 0, 0, 0, 0, 0, 0, 7]),
    (Part::Role, &[0, 0, 0, 1]),
    (Part::KeyId, b"\0\0\0\x01a"),
    (Part::Principals, b"\0\0\0\0"),
    (Part::After, &[0; 8]),
    (Part::Before, &[0xff; 8]),
    (Part::Critical, b"\0\0\0\0"),
    (Part::Extensions, b"\0\0\0\0"),
    (Part::Reserved, b"\0\0\0\0"),
    (
        Part::Authority,
        b"\0\0\0\x33\0\0\0\x0bssh-ed25519\0\0\0\x20\
          \x11\x11\x11\x11\x11\x11\x11\x11\x11\x11\x11\x11\x11\x11\x11\x11\
          \x11\x11\x11\x11\x11\x11\x11\x11\x11\x11\x11\x11\x11\x11\x11\x11",
    ),
    (
        Part::Signature,
        b"\0\0\0\x53\0\0\0\x0bssh-ed25519\0\0\0\x40\
          \0\0\0\0\0\0\0\0\0\0\0\0\0\0\0\0\0\0\0\0\0\0\0\0\0\0\0\0\0\0\0\0\
          \0\0\0\0\0\0\0\0\0\0\0\0\0\0\0\0\0\0\0\0\0\0\0\0\0\0\0\0\0\0\0\0",
    ),
];

/// That certificate with a field replaced by other bytes.
pub fn changed(alloc: Global, part: Part, field: &[u8]) -> Result<Vec<u8>, AllocError> {
    let mut blob = Vec::new(alloc);
    for (other, own) in &FIELDS {
        let bytes = if *other == part { field } else { *own };
        blob.extend_from_slice(bytes)?;
    }
    Ok(blob)
}

/// That certificate with a field replaced by a string of these strings.
pub fn with(alloc: Global, part: Part, list: &[&[u8]]) -> Result<Vec<u8>, AllocError> {
    let content = strings(alloc, list)?;
    let field = strings(alloc, &[&content])?;
    changed(alloc, part, &field)
}

/// That certificate.
pub fn certificate(alloc: Global) -> Result<Vec<u8>, AllocError> {
    changed(alloc, Part::Nonce, &[0; 4])
}

/// Whether the blob is not a certificate, for this fault.
pub fn has_fault(blob: &[u8], fault: CertFault) -> bool {
    match read_cert(blob) {
        Ok(_) => false,
        Err(found) => found == fault,
    }
}
