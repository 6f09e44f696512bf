//! Reading a printed fingerprint.

ghost use Rattle.std.specs.Prelude.{Ok};
ghost use Rattle.base64.specs.Engines.{standard_no_pad};
ghost use Rattle.base64.specs.GeneralPurpose.{decode_of};
ghost use Rattle.key_text.specs.FingerprintReading.{GivesDigest, fingerprint_at, sized};

use crate::fingerprint_fault::FingerprintFault;
use base64::DecodeAllocError;
use base64::engine::general_purpose::STANDARD_NO_PAD;
use std::alloc::Global;

/// The digest of a fingerprint, as `fingerprint` prints it for `Hash::Sha256`: `SHA256:`, and the
/// base64 of 32 bytes without padding.
///
/// Faults are reported in the order of their numbers. Memory for the bytes is allocated before they
/// are checked, so `NoMemory` may be returned instead of any result but `Prefix`.
#[tactic(auto, unfolding(crate::specs::FingerprintReading::fingerprint_at))]
pub fn parse_fingerprint(alloc: Global, text: &[u8]) -> Result<[u8; 32], FingerprintFault>
    // The digest of the text (`laws::fingerprint_read_where_spelled`), or otherwise its first fault
    // (`laws::fingerprint_refused_by_first_fault`), unless an allocation fails.
    ensures exact { GivesDigest result (fingerprint_at text.now) }
{
    let prefix = b"SHA256:";
    if !text.starts_with(prefix) {
        return Err(FingerprintFault::Prefix);
    }
    digest(alloc, &text[7..])
}

// The digest with this base64 without padding.
fn digest(alloc: Global, base64: &[u8]) -> Result<[u8; 32], FingerprintFault>
    ensures { GivesDigest result (sized (decode_of standard_no_pad base64.now)) }
{
    match STANDARD_NO_PAD.decode(alloc, base64) {
        Ok(bytes) => whole_digest(&bytes),
        Err(DecodeAllocError::DecodeError(_)) => Err(FingerprintFault::Base64),
        Err(DecodeAllocError::OutOfMemory) => Err(FingerprintFault::NoMemory),
    }
}

// The digest, if it has the size of one.
fn whole_digest(bytes: &[u8]) -> Result<[u8; 32], FingerprintFault>
    ensures { GivesDigest result (sized (Ok bytes.now)) }
{
    <[u8; 32]>::try_from(bytes).map_err(|_| FingerprintFault::Length)
}
