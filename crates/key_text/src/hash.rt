//! The hashes that identify a key.

ghost use Rattle.std.specs.Prelude.{◌≡◌};
ghost use Rattle.sha1.specs.Sha1.{sha1};
ghost use Rattle.sha2.specs.Sha256.{sha256};

use sha1::Sha1;
use sha2::{Digest, Sha256};

/// The hash of a fingerprint.
#[derive(Clone, Copy)]
pub enum Hash {
    /// MD5 (RFC 1321), for the fingerprints before OpenSSH 6.8.
    Md5,
    /// SHA-256 (FIPS 180-4).
    Sha256,
}

/// The SHA-1 of the bytes (FIPS 180-4), 20 bytes. Does not allocate.
pub fn sha1_of(bytes: &[u8]) -> [u8; 20]
    ensures { result ≡ sha1 bytes.now }
{
    Sha1::digest(bytes)
}

/// The SHA-256 of the bytes (FIPS 180-4), 32 bytes. Does not allocate.
pub fn sha256_of(bytes: &[u8]) -> [u8; 32]
    ensures { result ≡ sha256 bytes.now }
{
    Sha256::digest(bytes)
}
