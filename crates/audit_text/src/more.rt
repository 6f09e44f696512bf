//! The lines of a file that are only counted.

ghost use Rattle.std.specs.Prelude.{◌≡◌, OnOk};
ghost use Rattle.json_lines.specs.Field.{json_line};
ghost use Rattle.audit_text.specs.Colour.{word_text};
ghost use Rattle.audit_text.specs.More.{are_more, kind_mark, kind_word, more_line};
ghost use Rattle.audit_text.specs.More.{more_object, more_said, more_words, why_more};
ghost use Rattle.audit_text.specs.Place.{place_of};

use crate::colour::{Mark, unread_mark, verdict_mark};
use crate::format::Format;
use crate::line_kind::LineKind;
use crate::place::Location;
use json_lines::{Fields, LineWriter, Text, object, put_fields};
use line_pieces::{Printed, Words, put};
use std::alloc::{AllocError, Global};

/// The number of lines of a file that are not printed one by one, of one kind.
#[derive(Clone, Copy)]
pub struct More {
    /// The kind of the lines.
    pub kind: LineKind,
    /// The number of the lines.
    pub lines: u64,
}

// The words about them.
impl Printed for More {
    ghost text = { λ more. more_words more.kind more.lines };

    fn push_to(&self, out: &mut Vec<u8>) -> Result<(), AllocError> {
        put!(out; b"and ", self.lines, Words(are_more(self.lines == 1)),
            Words(kind_word(self.kind).as_bytes()))
    }
}

/// Makes the line about them.
pub fn write_more(
    form: Format,
    location: Location<'_, '_>,
    more: More,
    line: &mut Vec<u8>,
) -> Result<(), AllocError>
    ensures { OnOk result (line.new.items
        ≡ more_said form (place_of location.entry) more.kind more.lines) }
{
    match form {
        Format::Text => write_more_line(false, location, more, line),
        Format::Colour => write_more_line(true, location, more, line),
        Format::Json => write_more_object(location, more, line),
    }
}

// Makes the line in words, in colour or not.
fn write_more_line(
    coloured: bool,
    location: Location<'_, '_>,
    more: More,
    line: &mut Vec<u8>,
) -> Result<(), AllocError>
    ensures { OnOk result (line.new.items
        ≡ more_line coloured (place_of location.entry) more.kind more.lines) }
{
    line.clear();
    put!(line; location, kind_mark(coloured, more.kind), more, b"\n")
}

// Makes the object.
fn write_more_object(
    location: Location<'_, '_>,
    more: More,
    line: &mut Vec<u8>,
) -> Result<(), AllocError>
    ensures { OnOk result (line.new.items
        ≡ json_line (more_object (place_of location.entry) more.kind more.lines)) }
{
    object!(line; location, "status": kind_word(more.kind), "count": more.lines, more)
}

// The words about lines that are not read.
impl Fields for More {
    ghost fields = { λ more. why_more more.kind more.lines };

    #[tactic(auto, unfolding(json_lines::specs::Field::fields_tokens))]
    fn put_fields(&self, alloc: Global, out: &mut LineWriter) -> Result<(), AllocError> {
        match self.kind {
            LineKind::Unread => {
                let mut words = Vec::new(alloc);
                put!(&mut words; *self)?;
                put_fields!(alloc, out; "why": Text(&words))
            }
            LineKind::Empty | LineKind::Distrusted | LineKind::Fine | LineKind::Revoked => Ok(()),
        }
    }
}

// The word of a kind. Lines of the other two kinds are not printed.
fn kind_word(kind: LineKind) -> &'static str
    ensures { result.now ≡ kind_word kind }
{
    match kind {
        LineKind::Revoked => "revoked",
        LineKind::Fine => "ok",
        LineKind::Empty | LineKind::Distrusted | LineKind::Unread => "unread",
    }
}

// The same between colons, in colour or not.
fn kind_mark(coloured: bool, kind: LineKind) -> Mark
    ensures { word_text result.coloured result.colour.now result.word.now
        ≡ kind_mark coloured kind }
{
    match kind {
        LineKind::Revoked => verdict_mark(coloured, true),
        LineKind::Fine => verdict_mark(coloured, false),
        LineKind::Empty | LineKind::Distrusted | LineKind::Unread => unread_mark(coloured),
    }
}

// The words behind the number of lines.
fn are_more(one: bool) -> &'static [u8]
    ensures { result.now ≡ are_more one }
{
    if one {
        b" more line is "
    } else {
        b" more lines are "
    }
}
