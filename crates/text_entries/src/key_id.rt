//! Text that a line gives as a key ID (krl(1), THE TEXT OF A LIST).

ghost use Rattle.std.specs.Prelude.{◌≡◌};
ghost use Rattle.text_entries.specs.KeyId.{has_control, is_between, is_control, is_cut};
ghost use Rattle.text_entries.specs.KeyId.{is_quoted, looks_like_key, looks_like_several, no_id};

use crate::day::says_until;
use crate::text_cause::TextCause;
use crate::values::{begins_with_key, has_blank};
use key_text::is_blank;
use krl_spec::position_of;

// The name of each type of keys is shorter.
const LONGEST: usize = 64;

/// Why text is not taken for a key ID: it looks like something else. `id-hex:` gives such a
/// key ID by its bytes.
pub fn no_id(text: &[u8]) -> Option<TextCause>
    ensures { result ≡ no_id text.now }
{
    if looks_like_key(text) {
        Some(TextCause::KeyAsId)
    } else if is_quoted(text) {
        Some(TextCause::QuotedId)
    } else if looks_like_several(text) {
        Some(TextCause::SeveralIds)
    } else if says_until(text) {
        Some(TextCause::DateInId)
    } else {
        None
    }
}

/// Whether a `#` with no blank before it cuts the key ID of a line short.
#[tactic(auto, unfolding(crate::specs::KeyId::is_cut))]
pub fn is_cut(line: &[u8]) -> bool
    ensures { result ≡ is_cut line.now }
{
    let hash = position_of(line, b'#');
    hash < line.len() && !(hash > 0 && is_blank(line[hash - 1]))
}

/// Whether a key ID has a control character of ASCII.
pub fn has_control(id: &[u8]) -> bool
    ensures { result ≡ has_control id.now }
{
    id.iter().any(|byte| is_control(*byte))
}

// Whether a byte is a control character of ASCII.
fn is_control(byte: u8) -> bool
    ensures { result ≡ is_control byte }
{
    byte < 32 || byte == 127
}

// Whether the text begins as a key line: with the type name of a key and a blank.
fn looks_like_key(text: &[u8]) -> bool
    ensures { result ≡ looks_like_key text.now }
{
    has_blank(&text[..LONGEST.min(text.len())]) && begins_with_key(text)
}

// Whether a key ID begins and ends with the same quote.
fn is_quoted(id: &[u8]) -> bool
    ensures { result ≡ is_quoted id.now }
{
    is_between(b"\"", id) || is_between(b"'", id)
}

// Whether a key ID begins and ends with a mark of one byte.
fn is_between(mark: &[u8], id: &[u8]) -> bool
    ensures { result ≡ is_between mark.now id.now }
{
    id.len() > 1 && id.starts_with(mark) && id.ends_with(mark)
}

// Whether a key ID has a comma and a blank, as if several were meant.
#[tactic(auto, unfolding(crate::specs::KeyId::looks_like_several))]
fn looks_like_several(id: &[u8]) -> bool
    ensures { result ≡ looks_like_several id.now }
{
    let mut rest = id;
    'bytes: while let [byte, after @ ..] = rest {
        if *byte == b',' && after.starts_with(b" ") {
            return true;
        }
        rest = after;
    }
    false
}
