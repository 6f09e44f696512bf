//! Reading a key line (sshd(8), AUTHORIZED_KEYS FILE FORMAT).

ghost use Rattle.std.specs.Prelude.{◌≡◌, ℕ, List, IfErr, IfOk, Ok, Some, option_map};
ghost use Rattle.ssh_wire.specs.Wire.{IsBytes};
ghost use Rattle.ssh_wire.specs.Reading.{Answers};
ghost use Rattle.key_text.specs.Blanks.{first_word};
ghost use Rattle.key_text.specs.KeyLine.{IsKeyLine};
ghost use Rattle.key_text.specs.TypeName.{is_type_name};
ghost use Rattle.key_text.specs.LineFaults.{IsReportedFault};
ghost use Rattle.key_text.specs.LineReading.{ReportsFault, blob_at, content, content_at};
ghost use Rattle.key_text.specs.LineReading.{content_of, decoded, has_word, host_part, key_part};
ghost use Rattle.key_text.specs.LineReading.{line_at};

use crate::line_fault::LineFault;
use crate::type_name::is_type_name;
use base64::DecodeAllocError;
use base64::engine::general_purpose::STANDARD;
use ssh_wire::{Bytes, Cursor};
use std::alloc::Global;

mod options;
mod words;

use options::after_options;
pub use words::{after_blanks, before_ending, is_blank, is_ending, split_word, trimmed};

/// The contents of a key line.
#[derive(Drop)]
pub struct Line<'a> {
    /// The name of the key's type, borrowed from the line.
    pub word: &'a [u8],
    /// The key's bytes. Only their first string, the type word, has been read.
    pub blob: Bytes,
    /// The text after the key, borrowed from the line; it may be empty.
    pub comment: &'a [u8],
}

/// Reads a line of a public key file or of an authorized keys file (sshd(8)): a type name, the
/// key's bytes in base64 and a comment. An options field may be before them.
///
/// Blanks are spaces and tabs. The text is a line without its line feed; blanks at both its ends
/// and carriage returns at its end are skipped. The name is that of a plain key or of a
/// certificate, and it is the first string of the key's bytes; the bytes after it are not read.
///
/// Faults are reported in the order of their numbers. Memory for the key's bytes is allocated
/// before they are checked, so `NoMemory` may be returned instead of any result but `NoKey`.
pub fn read_line<'a>(alloc: Global, text: &'a [u8]) -> Result<Line<'a>, LineFault>
    // Reading returns only key lines.
    ensures found { IfOk result (λ line.
        IsKeyLine text.now line.word.now line.blob line.comment.now) }
    // Each key line is read, unless an allocation fails.
    ensures only { (word blob comment : List ℕ) → IsKeyLine text.now word blob comment
        → Answers ReportsFault content_of result (Ok (content word blob comment)) }
    // The fault is the first one of the text, unless an allocation fails.
    ensures fault { IfErr result (λ fault. IsReportedFault text.now fault) }
    // The answer is that of `line_at`, for proofs that compute with it.
    ensures exact { Answers ReportsFault content_of result (line_at text.now) }
{
    read_content(alloc, text)
}

// Reads the type word, the key and the comment of a line.
#[tactic(auto, unfolding(crate::specs::LineReading::line_at))]
fn read_content<'a>(alloc: Global, text: &'a [u8]) -> Result<Line<'a>, LineFault>
    ensures exact { Answers ReportsFault content_of result (line_at text.now) }
    ensures bytes { IfOk result (λ line. IsBytes line.blob) }
{
    let part = key_part(trimmed(text)).ok_or(LineFault::NoKey)?;
    read_part(alloc, part)
}

/// Reads a line from its type name on, which `key_part` or `host_part` found.
pub fn read_part<'a>(alloc: Global, part: &'a [u8]) -> Result<Line<'a>, LineFault>
    ensures exact { Answers ReportsFault content_of result (content_at (Some part.now)) }
    ensures bytes { IfOk result (λ line. IsBytes line.blob) }
{
    let (word, rest) = split_word(part);
    read_blob(alloc, word, after_blanks(rest))
}

/// The line from its type name on, if it has one: an options field or host names may be before it.
/// The line must not begin with a blank.
#[tactic(auto, unfolding(crate::specs::LineReading::key_part, crate::specs::LineReading::typed))]
pub fn key_part(line: &[u8]) -> Option<&[u8]>
    ensures { option_map (λ part. part.now) result ≡ key_part line.now }
{
    if begins_with_name(line) {
        return Some(line);
    }
    let part = after_blanks(after_options(line)?);
    if begins_with_name(part) {
        Some(part)
    } else {
        None
    }
}

/// A line of known hosts without its marker, from its type name on, if it has one: host names may
/// be before it. They end at the first blank, also between quotes, where ssh ends them.
#[tactic(auto, unfolding(crate::specs::LineReading::host_part, crate::specs::LineReading::typed))]
pub fn host_part(line: &[u8]) -> Option<&[u8]>
    ensures { option_map (λ part. part.now) result ≡ host_part line.now }
{
    if begins_with_name(line) {
        return Some(line);
    }
    let (_, rest) = split_word(line);
    let part = after_blanks(rest);
    if begins_with_name(part) {
        Some(part)
    } else {
        None
    }
}

// Returns true if the first word is a type name.
fn begins_with_name(line: &[u8]) -> bool
    ensures { result ≡ is_type_name (first_word line.now) }
{
    let (word, _) = split_word(line);
    is_type_name(word)
}

// The key's bytes and the comment, from the text after the type word and blanks.
#[tactic(auto, unfolding(crate::specs::LineReading::blob_at))]
fn read_blob<'a>(alloc: Global, word: &'a [u8], rest: &'a [u8]) -> Result<Line<'a>, LineFault>
    ensures exact { Answers ReportsFault content_of result (blob_at word.now rest.now) }
    ensures bytes { IfOk result (λ line. IsBytes line.blob) }
{
    if rest.is_empty() {
        return Err(LineFault::NoKey);
    }
    let (base64, rest) = split_word(rest);
    let blob = decoded(alloc, base64)?;
    if !has_word(word, &blob) {
        return Err(LineFault::WordDiffers);
    }
    Ok(Line {
        word,
        blob: Bytes::from_vec(blob),
        comment: after_blanks(rest),
    })
}

// The bytes of base64 with padding, whose unused bits are zero.
#[tactic(auto, unfolding(crate::specs::LineReading::decoded))]
fn decoded(alloc: Global, base64: &[u8]) -> Result<Vec<u8>, LineFault>
    ensures exact { Answers ReportsFault (λ bytes. bytes.items) result (decoded base64.now) }
    ensures bytes { IfOk result (λ bytes. IsBytes bytes.items) }
{
    STANDARD.decode(alloc, base64).map_err(|error| match error {
        DecodeAllocError::DecodeError(_) => LineFault::Base64,
        DecodeAllocError::OutOfMemory => LineFault::NoMemory,
    })
}

// Returns true if the word is the first string of a key's bytes.
#[tactic(auto, unfolding(crate::specs::LineReading::has_word))]
fn has_word(word: &[u8], blob: &[u8]) -> bool
    ensures { result ≡ has_word word.now blob.now }
{
    match Cursor::new(blob).string() {
        Ok(first) => first == word,
        Err(_) => false,
    }
}
