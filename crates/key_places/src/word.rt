//! Base64 words in a line.

ghost use Rattle.std.specs.Prelude.{◌≡◌, false, take, drop, IfOk};
ghost use Rattle.std.specs.List.{prefix_len};
ghost use Rattle.key_places.specs.Word.{begins_escape, begins_escaped, belongs, is_symbol};
ghost use Rattle.key_places.specs.Word.{word_at};

use std::alloc::{AllocError, Global};

// Returns true if a byte is a symbol of base64 or its padding.
fn is_symbol(byte: u8) -> bool
    ensures { result ≡ is_symbol byte }
{
    byte.is_ascii_alphanumeric() || byte == b'+' || byte == b'/' || byte == b'='
}

/// The symbols at the start of a text, and the text after them.
pub fn split_symbols(text: &[u8]) -> (&[u8], &[u8])
    ensures front { result.0.now ≡ take (prefix_len is_symbol text.now) text.now }
    ensures rest { result.1.now ≡ drop (prefix_len is_symbol text.now) text.now }
{
    for (i, byte) in text.iter().enumerate() {
        if !is_symbol(*byte) {
            return text.split_at(i);
        }
    }
    (text, &[])
}

/// Returns true if a text begins with a slash as JSON may spell it.
pub fn begins_escaped(text: &[u8]) -> bool
    ensures { result ≡ begins_escaped text.now }
{
    matches!(text, [b'\\', b'/', ..])
}

// Returns true if a byte belongs to a word, after a backslash or not.
fn belongs(escaped: bool, byte: u8) -> bool
    ensures { result ≡ belongs escaped byte }
{
    if escaped {
        byte == b'/'
    } else {
        is_symbol(byte)
    }
}

// Returns true if a byte is a backslash that begins an escape.
fn begins_escape(escaped: bool, byte: u8) -> bool
    ensures { result ≡ begins_escape escaped byte }
{
    byte == b'\\' && !escaped
}

/// The base64 word at the start of a text in which a slash may be spelled `\/`.
pub fn unescaped_word(alloc: Global, text: &[u8]) -> Result<Vec<u8>, AllocError>
    ensures { IfOk result (λ word. word.items ≡ word_at false text.now) }
{
    let mut word = Vec::new(alloc);
    let mut escaped = false;
    'bytes: for byte in text {
        if belongs(escaped, *byte) {
            word.push(*byte)?;
            escaped = false;
        } else if begins_escape(escaped, *byte) {
            escaped = true;
        } else {
            return Ok(word);
        }
    }
    Ok(word)
}
