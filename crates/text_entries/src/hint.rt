//! The form that a line with a fault may be meant in.

ghost use Rattle.std.specs.Prelude.{◌≡◌};
ghost use Rattle.text_entries.specs.Hint.{behind_hint, comment_hint, digits_hint, has_colon};
ghost use Rattle.text_entries.specs.Hint.{has_word, hint_at, is_entry_value};
ghost use Rattle.text_entries.specs.Hint.{is_file_name, is_print, key_hint, means_until, name_hint};
ghost use Rattle.text_entries.specs.Hint.{number_hint, spelling_hint, word_hint};
ghost use Rattle.text_entries.specs.Mark.{mark_in};
ghost use Rattle.text_entries.specs.Misspelt.{numbered_line};

use crate::authority::is_all;
use crate::day::{says_until, undated};
use crate::mark::{mark_in, value_in};
use crate::misspelt::{
    Misspelt, before_word_end, is_close, misspelt_behind, misspelt_in, numbered_line,
};
use crate::named::named_in;
use crate::text_cause::TextCause;
use crate::text_fault::TextFault;
use crate::values::{NO_KEY, has_blank, lacks_prefix};
use crate::word::order_in;
use key_text::after_blanks;
use krl_spec::{SpecCause, bare_line};
use std::marker::Model;

// The byte order mark of UTF-8, which some editors write at the beginning of a file.
const BYTE_ORDER_MARK: &[u8] = b"\xef\xbb\xbf";

/// The form that a line with a fault may be meant in.
#[derive(Debug, Drop)]
pub enum Hint<'a> {
    /// Its word is misspelt.
    Misspelt(Misspelt<'a>),
    /// It is a fingerprint, and lacks the word before it.
    Fingerprint,
    /// The name of a file is where a key belongs.
    KeyFile,
    /// The text begins with a byte order mark.
    ByteOrderMark,
    /// A serial number has hexadecimal digits, and lacks the `0x` before them.
    Hexadecimal,
    /// Another line may give the name of an authority that it has.
    Name(LineName<'a>),
    /// A colon is between the name of an authority and an entry.
    ColonBehindName,
    /// The word of a last day is misspelt, or not first on the line.
    LastDay,
    /// Its entry cannot have the last day that is in its comment.
    NoLastDay,
}

/// The name of an authority that a line begins with.
#[derive(Debug, Drop)]
pub struct LineName<'a> {
    /// The name.
    pub name: &'a [u8],
}

impl<'a> Model for LineName<'a> {
    ghost use Rattle.std.specs.Prelude.{ℕ, List};

    ghost Value = { List ℕ };

    ghost view = { λ line. line.name.now };
}

/// The form that the line of a text with this fault may be meant in.
///
/// A line that begins neither with a word and a colon nor with the type name of a key may have a
/// misspelt word or last day, and so may what follows the name of an authority. The first line may
/// begin with a byte order mark. A line that needs a key which is not there may be a fingerprint,
/// have the name of the key's file, or be an entry with a colon too many. A serial number that is
/// none may lack its `0x`, or have a last day behind it, as may hexadecimal digits; the month of
/// that day may look like a number with a leading zero. A name that is unknown or that of another
/// key may be given by another line. A key has no last day, and its comment may have one.
#[tactic(auto, unfolding(crate::specs::Hint::hint_at))]
pub fn hint_at(text: &[u8], fault: TextFault) -> Option<Hint<'_>>
    ensures { result ≡ hint_at text.now fault.line fault.cause }
{
    let content = undated(bare_line(numbered_line(text, fault.line)?));
    if fault.cause == TextCause::UnknownWord {
        word_hint(content, fault.line)
    } else if fault.cause == NO_KEY {
        key_hint(content)
    } else if fault.cause == TextCause::Spec(SpecCause::Number) {
        number_hint(content)
    } else if fault.cause == TextCause::LeadingZero || fault.cause == TextCause::Hex {
        digits_hint(content)
    } else if fault.cause == TextCause::DateInComment {
        comment_hint(content)
    } else if fault.cause == TextCause::MarkedWord {
        behind_hint(content)
    } else if fault.cause == TextCause::OtherKey || fault.cause == TextCause::UnknownName {
        name_hint(content)
    } else {
        None
    }
}

/// Whether the line with this number, counted from 1, begins with a word of texts and a colon, or
/// with the name of an authority before a colon or such a word. A last day may be before it.
pub fn has_word_at(text: &[u8], number: u64) -> bool
    ensures { result ≡ has_word (numbered_line text.now number) }
{
    match numbered_line(text, number) {
        Some(line) => value_in(undated(bare_line(line))).is_some(),
        None => false,
    }
}

// The form that the content of a line without a word may be meant in.
fn word_hint(content: &[u8], number: u64) -> Option<Hint<'_>>
    ensures { result ≡ word_hint content.now number }
{
    if number == 1 && content.starts_with(BYTE_ORDER_MARK) {
        return Some(Hint::ByteOrderMark);
    }
    spelling_hint(content)
}

// The form that content may be meant in which begins with no word.
fn spelling_hint(content: &[u8]) -> Option<Hint<'_>>
    ensures { result ≡ spelling_hint content.now }
{
    if means_until(content) {
        return Some(Hint::LastDay);
    }
    Some(Hint::Misspelt(misspelt_in(content)?))
}

// Whether the first word is the one that means a last day, or one slip off.
fn means_until(content: &[u8]) -> bool
    ensures { result ≡ means_until content.now }
{
    is_close(before_word_end(content), b"until")
}

// The form that the content of a line that lacks its key may be meant in.
fn key_hint(content: &[u8]) -> Option<Hint<'static>>
    ensures { result ≡ key_hint content.now }
{
    let given = value_in(content)?;
    if is_print(content) {
        return Some(Hint::Fingerprint);
    }
    if is_file_name(given) {
        return Some(Hint::KeyFile);
    }
    if has_colon(content) {
        return Some(Hint::ColonBehindName);
    }
    None
}

// Whether a colon is between the name of an authority and an entry.
fn has_colon(content: &[u8]) -> bool
    ensures { result ≡ has_colon (mark_in content.now) }
{
    let Some(mark) = mark_in(content) else {
        return false;
    };
    match mark.given() {
        Some(given) => is_entry_value(given) && !is_print(given),
        None => false,
    }
}

// Whether an entry may have this behind the name of an authority.
fn is_entry_value(given: &[u8]) -> bool
    ensures { result ≡ is_entry_value given.now }
{
    order_in(given).is_some() || is_all(given)
}

// The form that the content of a line whose serial number is none may be meant in.
fn number_hint(content: &[u8]) -> Option<Hint<'static>>
    ensures { result ≡ number_hint content.now }
{
    let given = value_in(content)?;
    if says_until(given) {
        return Some(Hint::LastDay);
    }
    if lacks_prefix(given) {
        return Some(Hint::Hexadecimal);
    }
    None
}

// The form that the content of a line may be meant in whose value is no pairs of digits.
fn digits_hint(content: &[u8]) -> Option<Hint<'static>>
    ensures { result ≡ digits_hint content.now }
{
    if says_until(value_in(content)?) {
        return Some(Hint::LastDay);
    }
    None
}

// The form that the content of a line may be meant in whose comment has a last day.
fn comment_hint(content: &[u8]) -> Option<Hint<'static>>
    ensures { result ≡ comment_hint content.now }
{
    if named_in(content).can_end() {
        return None;
    }
    Some(Hint::NoLastDay)
}

// The form that content may be meant in which has no word behind the name of an authority.
fn behind_hint(content: &[u8]) -> Option<Hint<'_>>
    ensures { result ≡ behind_hint content.now }
{
    let mark = mark_in(content)?;
    let behind = after_blanks(mark.rest);
    if order_in(behind).is_some() {
        return None;
    }
    if means_until(behind) {
        return Some(Hint::LastDay);
    }
    Some(Hint::Misspelt(misspelt_behind(behind)?))
}

// The name of an authority that content begins with.
fn name_hint(content: &[u8]) -> Option<Hint<'_>>
    ensures { result ≡ name_hint content.now }
{
    let mark = mark_in(content)?;
    Some(Hint::Name(LineName { name: mark.name }))
}

// Whether the text is one word that begins as a fingerprint.
fn is_print(text: &[u8]) -> bool
    ensures { result ≡ is_print text.now }
{
    (text.starts_with(b"SHA256:") || text.starts_with(b"SHA1:")) && !has_blank(text)
}

// Whether the text looks like the name of a key's file, and not like a key.
fn is_file_name(text: &[u8]) -> bool
    ensures { result ≡ is_file_name text.now }
{
    !has_blank(text)
        && (text.ends_with(b".pub")
            || text.starts_with(b"/")
            || text.starts_with(b"~")
            || text.starts_with(b"."))
}
