//! Keys of each kind, and the expected fingerprints and digests.

use key_text::{Hash, fingerprint};
use ssh_key::{KeyFault, Kind, read_key};
use std::alloc::{AllocError, Global};
use std::process::Abort;
use test_fixtures::PUBLISHED;

/// A kind, the strings of the blob of one of its keys, and the size of that key in bits.
pub const KEYS: [(Kind, &[&[u8]], u32); 9] = [
    (Kind::Rsa, &[b"ssh-rsa", &[3], &[0, 0xff]], 8),
    (Kind::Rsa, &[b"ssh-rsa", &[3], &[1, 0]], 9),
    (Kind::Dsa, &[b"ssh-dss", &[0x17], &[5], &[2], &[9]], 5),
    (
        Kind::Ecdsa256,
        &[b"ecdsa-sha2-nistp256", b"nistp256", &[4; 65]],
        256,
    ),
    (
        Kind::Ecdsa384,
        &[b"ecdsa-sha2-nistp384", b"nistp384", &[4; 97]],
        384,
    ),
    (
        Kind::Ecdsa521,
        &[b"ecdsa-sha2-nistp521", b"nistp521", &[4; 133]],
        521,
    ),
    (Kind::Ed25519, &[b"ssh-ed25519", &PUBLISHED], 256),
    (
        Kind::EcdsaSk,
        &[
            b"sk-ecdsa-sha2-nistp256@openssh.com",
            b"nistp256",
            &[4; 65],
            b"ssh:",
        ],
        256,
    ),
    (
        Kind::Ed25519Sk,
        &[b"sk-ssh-ed25519@openssh.com", &PUBLISHED, b"ssh:"],
        256,
    ),
];

/// Whether the blob has this fault.
pub fn has_fault(blob: &[u8], fault: KeyFault) -> bool {
    match read_key(blob) {
        Ok(_) => false,
        Err(found) => found == fault,
    }
}

/// Whether the bytes have this fingerprint.
pub fn has_fingerprint(
    alloc: Global,
    hash: Hash,
    bytes: &[u8],
    text: &[u8],
) -> Result<bool, AllocError> {
    let found = fingerprint(alloc, hash, bytes)?;
    Ok(found.as_slice() == text)
}

/// The digest is this one in base16.
pub fn has_digits(rt: &impl Abort, alloc: Global, digest: &[u8], digits: &str) {
    let found = hex::encode(alloc, digest).expect(rt, "there is memory");
    assert!(rt; found.as_str() == digits);
}
