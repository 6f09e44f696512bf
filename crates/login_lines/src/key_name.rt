//! A key as sshd names it.

ghost use Rattle.std.specs.Prelude.{◌≡◌, length, option_map};
ghost use Rattle.base64.specs.Engines.{standard_no_pad};
ghost use Rattle.base64.specs.GeneralPurpose.{decode_of};
ghost use Rattle.std.specs.Result.{result_ok};
ghost use Rattle.key_text.specs.FingerprintReading.{sized};
ghost use Rattle.login_lines.specs.KeyNames.{digest_at, key_at, name_and_rest};

use crate::words::{Class, split_span};
use base64::engine::general_purpose::STANDARD_NO_PAD;

/// A key as sshd names it: its kind, as `ED25519`, and the SHA-256 of its blob.
#[derive(Clone, Copy)]
pub struct KeyName<'a> {
    /// The kind, in upper case.
    pub kind: &'a [u8],
    /// The SHA-256 of the key's blob. For a certificate it is that of the plain key.
    pub sha256: [u8; 32],
}

/// The number of bytes of a printed SHA-256: `SHA256:` and 43 characters of base64.
const PRINT: usize = 50;

/// The kind and the fingerprint at the start of a text, and the text after them.
#[tactic(auto, unfolding(crate::specs::KeyNames::key_at))]
pub fn read_key(text: &[u8]) -> Option<(KeyName<'_>, &[u8])>
    ensures { option_map name_and_rest result ≡ key_at text.now }
{
    let (kind, text) = split_span(Class::Kind, b" ", text)?;
    let (print, rest) = text.split_first_chunk::<PRINT>()?;
    let sha256 = read_digest(print)?;
    Some((KeyName { kind, sha256 }, rest))
}

// The digest of a fingerprint.
#[tactic(auto, unfolding(key_text::specs::FingerprintReading::fingerprint_at))]
fn read_digest(print: &[u8; PRINT]) -> Option<[u8; 32]>
    ensures { result ≡ digest_at print.now }
{
    if !print.starts_with(b"SHA256:") {
        return None;
    }
    decoded(&print[7..])
}

// The 32 bytes that 43 characters of base64 encode.
fn decoded(base64: &[u8]) -> Option<[u8; 32]>
    requires { length base64.now ≡ 43 }
    ensures { result ≡ result_ok (sized (decode_of standard_no_pad base64.now)) }
{
    // The last characters are fewer than four, but decoding asks for room for three bytes.
    let mut bytes = [0; 33];
    let Ok(size) = STANDARD_NO_PAD.decode_slice_unchecked(base64, &mut bytes) else {
        return None;
    };
    <[u8; 32]>::try_from(&bytes[..size]).ok()
}
