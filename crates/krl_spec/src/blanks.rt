//! The content of a line.

ghost use Rattle.std.specs.Prelude.{◌≡◌, ◌==◌, ◌≤◌, length};
ghost use Rattle.std.specs.List.{position_or_len};
ghost use Rattle.key_text.specs.Blanks.{is_blank};
ghost use Rattle.krl_spec.specs.Blanks.{after_endings, before_blanks};
ghost use Rattle.krl_spec.specs.Blanks.{bare_line};

use key_text::{before_ending, is_blank, is_ending};

/// The content of a line: without a `#` and what follows it, and without the blanks and carriage
/// returns at both ends.
#[tactic(auto, unfolding(crate::specs::Blanks::bare_line))]
pub fn bare_line(line: &[u8]) -> &[u8]
    ensures { result.now ≡ bare_line line.now }
{
    before_ending(after_endings(&line[..position_of(line, b'#')]))
}

/// The position of the first such byte, or the length if there is none.
pub fn position_of(text: &[u8], sought: u8) -> usize
    ensures position { result ≡ position_or_len (λ byte. byte == sought) text.now }
    ensures within { result ≤ length text.now }
{
    for (at, byte) in text.iter().enumerate() {
        if *byte == sought {
            return at;
        }
    }
    text.len()
}

// The part after the blanks and carriage returns at the front.
fn after_endings(text: &[u8]) -> &[u8]
    ensures { result.now ≡ after_endings text.now }
{
    for (at, byte) in text.iter().enumerate() {
        if !is_ending(*byte) {
            return &text[at..];
        }
    }
    &[]
}

/// The part before the blanks at the end.
#[tactic(auto, unfolding(crate::specs::Blanks::before_blanks))]
pub fn before_blanks(text: &[u8]) -> &[u8]
    ensures { result.now ≡ before_blanks text.now }
{
    let mut end = text.len();
    while end > 0 && is_blank(text[end - 1]) {
        end -= 1;
    }
    &text[..end]
}
