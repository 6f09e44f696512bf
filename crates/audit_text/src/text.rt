//! The lines of findings.

ghost use Rattle.std.specs.Prelude.{◌≡◌, OnOk};
ghost use Rattle.audit_text.specs.Place.{place_of};
ghost use Rattle.audit_text.specs.Text.{comment_words, key_line, key_text, type_of};
ghost use Rattle.audit_text.specs.Text.{unread_line};
ghost use Rattle.audit_text.specs.Verdict.{answer_of};

use crate::colour::{unread_mark, verdict_mark};
use crate::explained::push_explained;
use crate::place::Location;
use crate::print::{KeyPrint, Spelling};
use crate::reasons::ReasonWords;
use audit_lines::{Found, Told, Why};
use krl_entries::Reasons;
use krl_fingerprints::KeysBy;
use krl_types::Subject;
use line_pieces::{Printed, Visible, Words, pieces, put};
use ssh_wire::Cursor;
use std::alloc::{AllocError, Global};
use text_index::Explanation;

/// The facts about a key: its bytes, the query for it, and the answer.
#[derive(Clone, Copy)]
pub struct Verdict<'a> {
    /// The key of a line, with its bytes.
    pub found: &'a Found<'a>,
    /// The query for the key.
    pub subject: &'a Subject<'a>,
    /// The reasons why the key is revoked.
    pub reasons: Reasons,
    /// The lines of texts that give these reasons, if texts are given.
    pub explanation: &'a Option<Explanation<'a>>,
}

// A comment, if there is one.
#[derive(Clone, Copy)]
struct Comment<'a>(&'a [u8]);

impl<'a> Printed for Comment<'a> {
    ghost text = { λ comment. comment_words comment.0.now };

    fn push_to(&self, out: &mut Vec<u8>) -> Result<(), AllocError> {
        if self.0.is_empty() {
            return Ok(());
        }
        put!(out; b": ", Visible(self.0, false))
    }
}

/// Makes the line for a line or file that is not read, with its line feed, in colour or not.
pub(crate) fn write_unread(
    alloc: Global,
    coloured: bool,
    location: Location<'_, '_>,
    why: Why,
    line: &mut Vec<u8>,
) -> Result<(), AllocError>
    ensures { OnOk result (line.new.items
        ≡ unread_line coloured (place_of location.entry) why) }
{
    line.clear();
    put!(line; location, unread_mark(coloured), Told { alloc, why }, b"\n")
}

/// Makes the line of a key, in colour or not, and the lines that explain it. A line feed ends each.
pub(crate) fn write_key(
    alloc: Global,
    coloured: bool,
    location: Location<'_, '_>,
    verdict: &Verdict<'_>,
    line: &mut Vec<u8>,
) -> Result<(), AllocError>
    ensures { OnOk result (line.new.items ≡ key_text coloured (place_of location.entry)
        verdict.now.found.now.blob verdict.now.found.now.comment.now
        verdict.now.subject.now (answer_of verdict.now)) }
{
    write_key_line(alloc, coloured, location, verdict, line)?;
    match verdict.explanation {
        None => Ok(()),
        Some(explanation) => push_explained(
            alloc,
            line,
            KeysBy::Blob,
            verdict.subject,
            explanation,
        ),
    }
}

// Makes the line of a key, with its line feed, in colour or not.
fn write_key_line(
    alloc: Global,
    coloured: bool,
    location: Location<'_, '_>,
    verdict: &Verdict<'_>,
    line: &mut Vec<u8>,
) -> Result<(), AllocError>
    ensures { OnOk result (line.new.items ≡ key_line coloured (place_of location.entry)
        verdict.now.found.now.blob verdict.now.found.now.comment.now
        verdict.now.subject.now (answer_of verdict.now)) }
{
    let by = KeysBy::Blob;
    let Verdict {
        found,
        subject,
        reasons,
        explanation,
    } = *verdict;
    let spelling = Spelling::explained(by, explanation);
    let key_type = type_of(found.blob.as_slice());
    let key = subject.plain.as_slice();
    line.clear();
    put!(line; location, verdict_mark(coloured, reasons.any()),
        pieces!(Words(key_type), b" ", KeyPrint { alloc, by, key }),
        ReasonWords { alloc, spelling, subject, reasons }, Comment(found.comment), b"\n")
}

/// The name of the type of a key, which is its first string.
#[tactic(auto, unfolding(crate::specs::Text::type_of))]
pub(crate) fn type_of(blob: &[u8]) -> &[u8]
    ensures { result.now ≡ type_of blob.now }
{
    match Cursor::new(blob).string() {
        Ok(name) => name,
        Err(_) => &[],
    }
}
