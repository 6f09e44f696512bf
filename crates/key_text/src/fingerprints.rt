//! The printed fingerprint of a key.

ghost use Rattle.std.specs.Prelude.{◌≡◌, ◌∷◌, ◌++◌, [], IfOk, codes, flat_map, string_bytes};
ghost use Rattle.hex.specs.Hex.{encode_lower};
ghost use Rattle.md5.specs.Md5.{md5};
ghost use Rattle.key_text.specs.Fingerprints.{colon_pair, fingerprint_text, unpadded};

use crate::hash::{Hash, sha256_of};
use base64::engine::general_purpose::STANDARD_NO_PAD;
use md5::{Digest, Md5};
use std::alloc::{AllocError, Global};

/// The fingerprint of a key's bytes, as ssh-keygen(1) prints it: `SHA256:` and 43 characters of
/// base64 without padding, or `MD5:` and 16 pairs of hexadecimal digits joined by colons. Any bytes
/// have one. Fails only if an allocation fails.
#[tactic(auto, unfolding(crate::specs::Fingerprints::fingerprint_text))]
pub fn fingerprint(alloc: Global, hash: Hash, bytes: &[u8]) -> Result<Vec<u8>, AllocError>
    ensures { IfOk result (λ text. text.items ≡ fingerprint_text hash bytes.now) }
{
    match hash {
        Hash::Md5 => md5_text(alloc, &md5_of(bytes)),
        Hash::Sha256 => sha256_text(alloc, &sha256_of(bytes)),
    }
}

// The text of a SHA-256 fingerprint.
fn sha256_text(alloc: Global, digest: &[u8; 32]) -> Result<Vec<u8>, AllocError>
    ensures { IfOk result (λ text. text.items ≡ codes "SHA256:" ++ unpadded digest.now) }
{
    let base64 = unpadded(alloc, digest)?;
    let mut text = Vec::with_capacity(alloc, 7 + base64.len())?;
    text.extend_from_slice(b"SHA256:")?;
    text.extend_from_slice(base64.as_bytes())?;
    Ok(text)
}

// The base64 of bytes, without padding (RFC 4648 section 4).
#[tactic(auto, unfolding(crate::specs::Fingerprints::unpadded))]
fn unpadded(alloc: Global, bytes: &[u8]) -> Result<String, AllocError>
    ensures { IfOk result (λ text. string_bytes text ≡ unpadded bytes.now) }
{
    STANDARD_NO_PAD.encode(alloc, bytes)
}

// The MD5 hash of bytes.
fn md5_of(bytes: &[u8]) -> [u8; 16]
    ensures { result ≡ md5 bytes.now }
{
    Md5::digest(bytes)
}

// The text of an MD5 fingerprint.
fn md5_text(alloc: Global, digest: &[u8; 16]) -> Result<Vec<u8>, AllocError>
    ensures { IfOk result (λ text. text.items ≡ codes "MD5" ++ flat_map colon_pair digest.now) }
{
    let mut text = Vec::with_capacity(alloc, 3 + 3 * digest.len())?;
    text.extend_from_slice(b"MD5")?;
    for byte in digest {
        text.extend_from_slice(&colon_pair(*byte))?;
    }
    Ok(text)
}

// A colon and the two hexadecimal digits of a byte.
#[tactic(auto, unfolding(crate::specs::Fingerprints::colon_pair))]
fn colon_pair(byte: u8) -> [u8; 3]
    ensures { result ≡ colon_pair byte }
{
    let digits = digits_of(byte);
    [b':', digits[0], digits[1]]
}

// The two hexadecimal digits of a byte.
fn digits_of(byte: u8) -> [u8; 2]
    ensures { result ≡ encode_lower (byte ∷ []) }
{
    let mut digits = [0; 2];
    let Ok(()) = hex::encode_to_slice(&[byte], &mut digits) else {
        unreachable!();
    };
    digits
}
