//! The last day of an entry (krl(1), THE TEXT OF A LIST).

ghost use Rattle.std.specs.Prelude.{◌≡◌, ◌<◌, ◌+◌, length, MatchOption, None, Some};
ghost use Rattle.std.specs.Char.{is_ascii_digit};
ghost use Rattle.std.specs.List.{list_all};
ghost use Rattle.text_entries.specs.Day.{after_word_ends, begins_with_day, day_in, day_of};
ghost use Rattle.text_entries.specs.Day.{has_day_in_comment, is_apart, is_date, is_dated, is_over};
ghost use Rattle.text_entries.specs.Day.{is_u, is_until, last_day, says_until, two_at, undated};
ghost use Rattle.text_entries.specs.Day.{dated_content, until_first, until_in};

use crate::misspelt::is_word_end;
use jiff_core::civil::{Date, days_in_month};
use key_text::{after_blanks, is_blank};
use krl_spec::position_of;
use memchr::memchr2;

// The bytes of a day.
const SIZE: usize = 10;

// The word that means a last day.
const WORD: &[u8] = b"until";

/// A day that is written as `YYYY-MM-DD`, by its number from 1970-01-01 on.
#[tactic(auto, unfolding(crate::specs::Day::day_in, crate::specs::Day::is_dated))]
pub fn day_in(text: &[u8]) -> Option<i32>
    ensures { result ≡ day_in text.now }
{
    if !is_dated(text) {
        return None;
    }
    day_of(
        two_at(text, 0) * 100 + two_at(text, 2),
        two_at(text, 5),
        two_at(text, 8),
    )
}

// The number of a day of the calendar, in a year of four digits.
fn day_of(year: u64, month: u64, day: u64) -> Option<i32>
    ensures { result ≡ day_of year month day }
{
    if !is_date(year, month, day) {
        return None;
    }
    let date = Date::constrain(year as i16, month as u8, day as u8);
    Some(date.to_unix_epoch_day())
}

// Whether the calendar has this day, in a year of four digits.
fn is_date(year: u64, month: u64, day: u64) -> bool
    ensures { result ≡ is_date year month day }
{
    year < 10_000
        && month > 0
        && month < 13
        && day > 0
        && day <= u64::from(days_in_month(year as i16, month as u8))
}

// Whether the text is four digits, two and two, with hyphens between them.
#[tactic(auto, unfolding(crate::specs::Day::is_dated))]
fn is_dated(text: &[u8]) -> bool
    ensures { result ≡ is_dated text.now }
{
    text.len() == SIZE
        && text[4] == b'-'
        && text[7] == b'-'
        && are_digits(&text[..4])
        && are_digits(&text[5..][..2])
        && are_digits(&text[8..])
}

// Whether each byte is a digit.
fn are_digits(text: &[u8]) -> bool
    ensures { result ≡ list_all is_ascii_digit text.now }
{
    text.iter().all(|byte| byte.is_ascii_digit())
}

// The number of two digits.
fn two_at(text: &[u8], at: usize) -> u64
    requires { at + 1 < length text.now }
    ensures value { result ≡ two_at text.now at }
    ensures small { result < 3_000 }
{
    let tens = u64::from(text[at].saturating_sub(b'0'));
    let ones = u64::from(text[at + 1].saturating_sub(b'0'));
    tens * 10 + ones
}

/// Whether a day is before today, given by its number from 1970-01-01 on.
pub(crate) fn is_over(today: u64, day: i32) -> bool
    ensures { result ≡ is_over today day }
{
    i128::from(day) < i128::from(today)
}

/// The text behind the word of a last day and blanks, where content begins with them.
#[tactic(auto, unfolding(crate::specs::Day::until_in))]
pub(crate) fn until_in(content: &[u8]) -> Option<&[u8]>
    ensures { MatchOption result (until_in content.now ≡ None)
        (λ behind. until_in content.now ≡ Some behind.now) }
{
    match content {
        [first, ..] if *first == b'u' || *first == b'U' => until_first(content),
        _ => None,
    }
}

// The same for content that begins with the first letter of the word.
fn until_first(content: &[u8]) -> Option<&[u8]>
    ensures { MatchOption result (until_first content.now ≡ None)
        (λ behind. until_first content.now ≡ Some behind.now) }
{
    if content.len() > WORD.len() && is_until(&content[..5]) && is_blank(content[5]) {
        Some(after_blanks(&content[6..]))
    } else {
        None
    }
}

// Whether the word is the one that means a last day.
fn is_until(word: &[u8]) -> bool
    ensures { result ≡ is_until word.now }
{
    word.eq_ignore_ascii_case(WORD)
}

/// The last day behind its word.
pub(crate) fn last_day(behind: &[u8]) -> Option<i32>
    ensures { result ≡ last_day behind.now }
{
    let size = SIZE.min(behind.len());
    if is_apart(&behind[size..]) {
        day_in(&behind[..size])
    } else {
        None
    }
}

// Whether the text does not belong to the word before it.
fn is_apart(text: &[u8]) -> bool
    ensures { result ≡ is_apart text.now }
{
    match text {
        [first, ..] => is_blank(*first),
        _ => true,
    }
}

/// The content that has a last day, which is behind the word of that day.
pub(crate) fn dated_content(behind: &[u8]) -> &[u8]
    ensures { result.now ≡ dated_content behind.now }
{
    after_blanks(&behind[SIZE.min(behind.len())..])
}

/// Content without the last day that it begins with.
pub(crate) fn undated(content: &[u8]) -> &[u8]
    ensures { result.now ≡ undated content.now }
{
    match until_in(content) {
        Some(behind) => dated_content(behind),
        None => content,
    }
}

/// Whether the comment of a line has the word of a last day, and a date.
pub(crate) fn has_day_in_comment(line: &[u8]) -> bool
    ensures { result ≡ has_day_in_comment line.now }
{
    says_until(&line[position_of(line, b'#')..])
}

/// Whether the word of a last day and a date are somewhere in a text.
pub(crate) fn says_until(text: &[u8]) -> bool
    ensures { result ≡ says_until text.now }
{
    // Most bytes are skipped by the search for the first letter, many at a time.
    let mut rest = text;
    'words: while let Some(at) = memchr2(b'u', b'U', rest) {
        let word = &rest[at..];
        if begins_with_day(word) {
            return true;
        }
        rest = &word[1..];
    }
    false
}

// Whether a text begins with the word of a last day, and a date.
fn begins_with_day(text: &[u8]) -> bool
    ensures { result ≡ begins_with_day text.now }
{
    let size = WORD.len().min(text.len());
    if !is_until(&text[..size]) {
        return false;
    }
    let day = after_word_ends(&text[size..]);
    is_dated(&day[..SIZE.min(day.len())])
}

// The text behind colons, equals signs and blanks.
#[tactic(auto, unfolding(crate::specs::Day::after_word_ends))]
fn after_word_ends(text: &[u8]) -> &[u8]
    ensures { result.now ≡ after_word_ends text.now }
{
    let mut rest = text;
    'bytes: while let [byte, after @ ..] = rest {
        if !is_word_end(*byte) {
            return rest;
        }
        rest = after;
    }
    rest
}
