//! Words and the blanks between them.

ghost use Rattle.std.specs.Prelude.{◌≡◌};
ghost use Rattle.key_text.specs.Blanks.{after_blanks, before_ending, first_word, is_blank};
ghost use Rattle.key_text.specs.Blanks.{is_ending, trimmed};
ghost use Rattle.key_text.specs.LineReading.{after_word};

/// Returns true if a byte is a blank: a space or a tab.
pub fn is_blank(byte: u8) -> bool
    ensures { result ≡ is_blank byte }
{
    byte == b' ' || byte == b'\t'
}

/// Returns true if a byte is removed from the end of a line: a blank or a carriage return.
pub fn is_ending(byte: u8) -> bool
    ensures { result ≡ is_ending byte }
{
    is_blank(byte) || byte == b'\r'
}

/// The line without blanks at both ends and carriage returns at its end.
#[tactic(auto, unfolding(crate::specs::Blanks::trimmed))]
pub fn trimmed(line: &[u8]) -> &[u8]
    ensures { result.now ≡ trimmed line.now }
{
    before_ending(after_blanks(line))
}

/// The first word, up to a blank or the end, and the text after it.
#[tactic(auto, unfolding(crate::specs::Blanks::first_word, crate::specs::LineReading::after_word))]
pub fn split_word(text: &[u8]) -> (&[u8], &[u8])
    ensures word { result.0.now ≡ first_word text.now }
    ensures rest { result.1.now ≡ after_word text.now }
{
    for (i, byte) in text.iter().enumerate() {
        if is_blank(*byte) {
            return text.split_at(i);
        }
    }
    (text, &[])
}

/// The text after the blanks at the start.
#[tactic(auto, unfolding(crate::specs::Blanks::after_blanks))]
pub fn after_blanks(text: &[u8]) -> &[u8]
    ensures { result.now ≡ after_blanks text.now }
{
    for (i, byte) in text.iter().enumerate() {
        if !is_blank(*byte) {
            return &text[i..];
        }
    }
    &[]
}

/// The text before the blanks and carriage returns at the end.
#[tactic(auto, unfolding(crate::specs::Blanks::before_ending))]
pub fn before_ending(text: &[u8]) -> &[u8]
    ensures { result.now ≡ before_ending text.now }
{
    let mut end = text.len();
    while end > 0 && is_ending(text[end - 1]) {
        end -= 1;
    }
    &text[..end]
}
