//! The misspelt word of a line, and what was meant.

ghost use Rattle.std.specs.Prelude.{◌≡◌, MatchOption, None, Some};
ghost use Rattle.std.specs.List.{before_first};
ghost use Rattle.text_entries.specs.Misspelt.{is_close, is_word_end, misspelt_in, numbered_line};
ghost use Rattle.text_entries.specs.Named.{misspelt_behind};

use crate::named::named_by;
use crate::one_off::is_one_off;
use crate::word::Word;
use key_text::{is_blank, split_line};
use std::marker::Model;

/// A beginning of a line instead of a word of texts and a colon, and the word that was meant.
#[derive(Debug, Drop)]
pub struct Misspelt<'a> {
    /// The beginning of the line.
    pub word: &'a [u8],
    /// The word that was meant, in lower case.
    pub meant: &'static str,
}

impl<'a> Model for Misspelt<'a> {
    ghost use Rattle.text_entries.specs.Misspelt.{Misspelt};

    ghost Value = { Misspelt };

    ghost view = { λ misspelt. record { word = misspelt.word.now; meant = misspelt.meant.now } };
}

/// The line with this number, counted from 1.
pub(crate) fn numbered_line(text: &[u8], number: u64) -> Option<&[u8]>
    ensures { MatchOption result (numbered_line text.now number ≡ None)
        (λ line. numbered_line text.now number ≡ Some line.now) }
{
    let mut rest = text;
    let mut left = number.saturating_sub(1);
    'lines: loop {
        let (line, after) = split_line(rest);
        if left == 0 {
            return Some(line);
        }
        let Some(after) = after else {
            return None;
        };
        rest = after;
        left -= 1;
    }
}

/// The misspelt word of a line's content: what it begins with, up to a colon, an equals sign or a
/// blank. It has one if a word of texts is one slip off, or the same and only its colon is missing
/// or misplaced. Letters in upper and lower case count the same.
#[tactic(auto, unfolding(crate::specs::Misspelt::misspelt_in))]
pub(crate) fn misspelt_in(line: &[u8]) -> Option<Misspelt<'_>>
    ensures { result ≡ misspelt_in line.now }
{
    let word = before_word_end(line);
    let meant = Word::meant(word)?.name();
    Some(Misspelt { word, meant })
}

/// The misspelt word behind the name of an authority, where a word for certificates is meant.
pub(crate) fn misspelt_behind(behind: &[u8]) -> Option<Misspelt<'_>>
    ensures { result ≡ misspelt_behind behind.now }
{
    let word = before_word_end(behind);
    let meant = Word::meant(word)?;
    if !named_by(meant).can_end() {
        return None;
    }
    Some(Misspelt {
        word,
        meant: meant.name(),
    })
}

// The part of a line before its first byte that ends a word.
pub(crate) fn before_word_end(line: &[u8]) -> &[u8]
    ensures { result.now ≡ before_first is_word_end line.now }
{
    for (at, byte) in line.iter().enumerate() {
        if is_word_end(*byte) {
            return &line[..at];
        }
    }
    line
}

/// Whether two spellings are the same or differ in one slip. Letters in upper and lower case count
/// the same.
pub fn is_close(given: &[u8], meant: &[u8]) -> bool
    ensures { result ≡ is_close given.now meant.now }
{
    given.eq_ignore_ascii_case(meant) || is_one_off(given, meant)
}

// Whether a word ends before this byte: a colon, an equals sign or a blank.
pub(crate) fn is_word_end(byte: u8) -> bool
    ensures { result ≡ is_word_end byte }
{
    byte == b':' || byte == b'=' || is_blank(byte)
}
