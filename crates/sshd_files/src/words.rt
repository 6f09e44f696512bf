//! Words and fields of a text.

ghost use Rattle.std.specs.Prelude.{◌≡◌, ◌==◌, option_map, position};
ghost use Rattle.sshd_files.specs.Words.{is_none_word, parts, split_around};

/// The text before the first separator, and the text after it.
#[tactic(auto, unfolding(crate::specs::Words::split_around))]
pub fn split_around(separator: u8, text: &[u8]) -> Option<(&[u8], &[u8])>
    ensures { option_map parts result ≡ split_around separator text.now }
{
    let at = first_at(separator, text)?;
    Some((&text[..at], &text[at + 1..]))
}

// The index of the first separator.
fn first_at(separator: u8, text: &[u8]) -> Option<usize>
    ensures { result ≡ position (λ byte. byte == separator) text.now }
{
    text.iter().position(|byte| *byte == separator)
}

/// Returns true if a word is `none`, in upper or lower case.
#[tactic(auto, unfolding(crate::specs::Words::is_none_word))]
pub fn is_none_word(word: &[u8]) -> bool
    ensures { result ≡ is_none_word word.now }
{
    word.eq_ignore_ascii_case(b"none")
}
