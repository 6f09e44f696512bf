//! One place in a line.

ghost use Rattle.std.specs.Prelude.{◌≡◌, ◌<◌, false, length, IfOk, option_map};
ghost use Rattle.key_places.specs.Reading.{content_of, place_at, place_of};
ghost use Rattle.key_places.specs.Word.{word_at};

use crate::blob::{blob_of, starts_blob};
use crate::name::{may_begin, split_name};
use crate::word::{begins_escaped, split_symbols, unescaped_word};
use key_text::after_blanks;
use ssh_wire::Bytes;
use std::alloc::{AllocError, Global};

/// A key or a certificate in a line.
#[derive(Drop)]
pub struct Place<'l> {
    /// The position of the name in the line, from 1 on.
    pub column: u64,
    /// The name of the type, borrowed from the line.
    pub name: &'l [u8],
    /// The blob. Only its first string, the name, has been read. It is none if the word is cut: it
    /// begins as a blob of this type, but is not base64 with padding.
    pub blob: Option<Bytes>,
}

/// The place that begins at a position, if one does.
#[tactic(auto, unfolding(crate::specs::Reading::place_at))]
pub fn place_at<'l>(
    alloc: Global,
    line: &'l [u8],
    at: usize,
) -> Result<Option<Place<'l>>, AllocError>
    requires { at < length line.now }
    ensures { IfOk result (λ read. option_map content_of read ≡ place_at line.now at) }
{
    if !may_begin(line, at) {
        return Ok(None);
    }
    match split_name(&line[at..]) {
        Some((name, rest)) => named_place(alloc, at as u64 + 1, name, after_blanks(rest)),
        None => Ok(None),
    }
}

// The place of a name at a column, with the text after the blanks.
fn named_place<'l>(
    alloc: Global,
    column: u64,
    name: &'l [u8],
    text: &[u8],
) -> Result<Option<Place<'l>>, AllocError>
    ensures { IfOk result (λ read.
        option_map content_of read ≡ place_of column name.now (word_at false text.now)) }
{
    let (symbols, rest) = split_symbols(text);
    if !begins_escaped(rest) {
        return place_of(alloc, column, name, symbols);
    }
    let word = unescaped_word(alloc, text)?;
    place_of(alloc, column, name, &word)
}

// The place of a name and a base64 word, if the word begins as a blob.
#[tactic(auto, unfolding(crate::specs::Reading::place_of))]
fn place_of<'l>(
    alloc: Global,
    column: u64,
    name: &'l [u8],
    word: &[u8],
) -> Result<Option<Place<'l>>, AllocError>
    ensures { IfOk result (λ read.
        option_map content_of read ≡ place_of column name.now word.now) }
{
    if !starts_blob(alloc, name, word)? {
        return Ok(None);
    }
    let blob = blob_of(alloc, word)?;
    Ok(Some(Place { column, name, blob }))
}
