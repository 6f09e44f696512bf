//! The part of a line that counts.

ghost use Rattle.std.specs.Prelude.{◌≡◌};
ghost use Rattle.plain_list.specs.Line.{before_zero, begins_with_key, content_of, is_remark};

use key_text::{after_blanks, before_ending, key_part};

/// The part of a line that counts: up to its first zero byte, and without the blanks at its start.
pub(crate) fn content_of(line: &[u8]) -> &[u8]
    ensures { result.now ≡ content_of line.now }
{
    after_blanks(before_zero(line))
}

// The line up to its first zero byte.
#[tactic(auto, unfolding(crate::specs::Line::before_zero))]
fn before_zero(line: &[u8]) -> &[u8]
    ensures { result.now ≡ before_zero line.now }
{
    for (at, byte) in line.iter().enumerate() {
        if *byte == 0 {
            return &line[..at];
        }
    }
    line
}

/// Returns true if the content of a line is empty or a comment.
pub(crate) fn is_remark(content: &[u8]) -> bool
    ensures { result ≡ is_remark content.now }
{
    match content {
        [] => true,
        [first, ..] => *first == b'#',
    }
}

/// Returns true if the content of a line begins with the type name of its key: no options field,
/// marker or host names are before it.
#[tactic(auto, unfolding(key_text::specs::Blanks::trimmed))]
pub(crate) fn begins_with_key(content: &[u8]) -> bool
    ensures { result ≡ begins_with_key content.now }
{
    let line = before_ending(after_blanks(content));
    match key_part(line) {
        Some(part) => part.len() == line.len(),
        None => false,
    }
}
