//! The blob that a base64 word spells.

ghost use Rattle.std.specs.Prelude.{◌≡◌, IfOk, IfSome, option_map};
ghost use Rattle.std.specs.Result.{result_ok};
ghost use Rattle.ssh_wire.specs.Wire.{IsBytes};
ghost use Rattle.key_text.specs.LineReading.{decoded, has_word};
ghost use Rattle.key_places.specs.Blob.{blob_of, starts_blob};

use base64::DecodeAllocError;
use base64::engine::general_purpose::STANDARD;
use ssh_wire::{Bytes, Cursor};
use std::alloc::{AllocError, Global};

/// The bytes whose base64 with padding is the word, if it is the base64 of some.
#[tactic(auto, unfolding(crate::specs::Blob::blob_of, key_text::specs::LineReading::decoded))]
pub fn blob_of(alloc: Global, word: &[u8]) -> Result<Option<Bytes>, AllocError>
    ensures exact { IfOk result (λ read. read ≡ blob_of word.now) }
    ensures bytes { IfOk result (λ read. IfSome read (λ blob. IsBytes blob)) }
{
    match STANDARD.decode(alloc, word) {
        Ok(bytes) => Ok(Some(Bytes::from_vec(bytes))),
        Err(DecodeAllocError::DecodeError(_)) => Ok(None),
        Err(DecodeAllocError::OutOfMemory) => Err(AllocError),
    }
}

/// Returns true if a word begins with the base64 of bytes that begin with the string of a name.
#[tactic(auto, unfolding(crate::specs::Blob::starts_blob))]
pub fn starts_blob(alloc: Global, name: &[u8], word: &[u8]) -> Result<bool, AllocError>
    ensures { IfOk result (λ starts. starts ≡ starts_blob name.now word.now) }
{
    let size = 4 * ((name.len() + 6) / 3);
    let start = &word[..size.min(word.len())];
    match blob_of(alloc, start)? {
        Some(bytes) => Ok(has_word(name, bytes.as_slice())),
        None => Ok(false),
    }
}

// Returns true if the word is the first string of the bytes (RFC 4251 section 5).
#[tactic(auto, unfolding(key_text::specs::LineReading::has_word))]
fn has_word(word: &[u8], bytes: &[u8]) -> bool
    ensures { result ≡ has_word word.now bytes.now }
{
    match Cursor::new(bytes).string() {
        Ok(first) => first == word,
        Err(_) => false,
    }
}
