//! The lines of texts that explain why a key is revoked.

ghost use Rattle.std.specs.Prelude.{◌≡◌, ◌++◌, ◌∷◌, [], OnOk, Some, map};
ghost use Rattle.std.specs.List.{flat_map};
ghost use Rattle.json_lines.specs.Field.{values_tokens};
ghost use Rattle.text_index.specs.Explaining.{explained_of};
ghost use Rattle.text_index.specs.Indexing.{line_of};
ghost use Rattle.audit_text.specs.Objects.{entry_value, explained_fields};
ghost use Rattle.audit_text.specs.Print.{spelled_by, spelled_of};
ghost use Rattle.audit_text.specs.Text.{entry_line, explained_text, unnamed_line};

use crate::place::Location;
use crate::print::{Spelling, name_in};
use crate::reason_values::ReasonsOf;
use crate::reasons::ReasonWords;
use json_lines::{Array, Fields, LineWriter, Text, Values, put_fields, put_object};
use krl_entries::Reasons;
use krl_fingerprints::KeysBy;
use krl_types::Subject;
use line_pieces::{Visible, put};
use std::alloc::{AllocError, Global};
use text_index::{Explanation, TextLine};

/// Appends the lines that explain a finding about a key, and the reasons that no line gives. The
/// subject gives keys so.
#[tactic(auto, unfolding(crate::specs::Text::explained_text))]
pub fn push_explained(
    alloc: Global,
    text: &mut Vec<u8>,
    by: KeysBy,
    subject: &Subject<'_>,
    explanation: &Explanation<'_>,
) -> Result<(), AllocError>
    ensures { OnOk result (text.new.items ≡ text.old.items
        ++ explained_text (spelled_by by (Some (explained_of explanation.now))) subject.now
        (explained_of explanation.now)) }
{
    push_lines(text, explanation.lines.as_slice())?;
    if explanation.unnamed.any() {
        let authority = name_in(explanation);
        let spelling = Spelling { by, authority };
        push_unnamed(alloc, text, spelling, subject, explanation.unnamed)?;
    }
    Ok(())
}

// Appends lines of texts, each with its place.
fn push_lines(text: &mut Vec<u8>, lines: &[TextLine<'_>]) -> Result<(), AllocError>
    ensures { OnOk result (text.new.items
        ≡ text.old.items ++ flat_map entry_line (map line_of lines.now)) }
{
    for line in lines {
        push_line(text, *line)?;
    }
    Ok(())
}

// Appends a line of a text, with its place.
fn push_line(text: &mut Vec<u8>, line: TextLine<'_>) -> Result<(), AllocError>
    ensures { OnOk result (text.new.items ≡ text.old.items ++ entry_line (line_of line.entry)) }
{
    let TextLine {
        file: name,
        number,
        text: bytes,
    } = line;
    put!(text; b"  ", Location::line(name, number), b": ", Visible(bytes, false), b"\n")
}

// Appends the line that says which reasons no line gives.
fn push_unnamed(
    alloc: Global,
    text: &mut Vec<u8>,
    spelling: Spelling<'_>,
    subject: &Subject<'_>,
    unnamed: Reasons,
) -> Result<(), AllocError>
    ensures { OnOk result (text.new.items
        ≡ text.old.items ++ unnamed_line (spelled_of spelling.entry) subject.now unnamed) }
{
    put!(text; b"  no line of the texts names it",
        ReasonWords { alloc, spelling, subject, reasons: unnamed }, b"\n")
}

/// The explanation of a finding about a key, if texts are given. The subject gives keys so.
#[derive(Drop)]
pub struct ExplainedOf<'a>(
    pub KeysBy,
    pub &'a Subject<'a>,
    pub &'a Option<Explanation<'a>>,
);

impl<'a> Fields for ExplainedOf<'a> {
    ghost use Rattle.std.specs.Prelude.{option_map};

    ghost fields = { λ of. explained_fields of.0 of.1.now (option_map explained_of of.2.now) };

    #[tactic(auto, unfolding(json_lines::specs::Field::fields_tokens))]
    fn put_fields(&self, alloc: Global, out: &mut LineWriter) -> Result<(), AllocError> {
        let Some(explanation) = self.2 else {
            return Ok(());
        };
        let authority = name_in(explanation);
        let spelling = Spelling {
            by: self.0,
            authority,
        };
        put_fields!(alloc, out; "entries": Array(LinesOf(explanation.lines.as_slice())),
            "unnamed": Array(ReasonsOf(spelling, self.1, explanation.unnamed)))
    }
}

// Lines of texts.
#[derive(Drop)]
struct LinesOf<'a>(&'a [TextLine<'a>]);

impl<'a> Values for LinesOf<'a> {
    ghost values = { λ lines. map entry_value (map line_of lines.0.now) };

    fn put_values(&self, alloc: Global, out: &mut LineWriter) -> Result<(), AllocError> {
        for line in self.0 {
            put_line(alloc, *line, out)?;
        }
        Ok(())
    }
}

// Writes a line of a text.
#[tactic(auto, unfolding(json_lines::specs::Field::values_tokens))]
fn put_line(alloc: Global, line: TextLine<'_>, out: &mut LineWriter) -> Result<(), AllocError>
    ensures { OnOk result (out.new
        ≡ out.old ++ values_tokens (entry_value (line_of line.entry) ∷ [])) }
{
    let TextLine {
        file: name,
        number,
        text,
    } = line;
    put_object!(alloc, out; Location::line(name, number), "text": Text(text))
}
