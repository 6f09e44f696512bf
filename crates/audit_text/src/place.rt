//! The places of findings: files, their lines, and columns of these.

ghost use Rattle.std.specs.Prelude.{◌≡◌};
ghost use Rattle.audit_text.specs.Objects.{label_fields, location_fields, number_fields};
ghost use Rattle.audit_text.specs.Place.{file_place, label_now, line_place, place_of};
ghost use Rattle.audit_text.specs.Text.{label_text, location_text, number_text};

use json_lines::{Fields, LineWriter, put_fields};
use line_pieces::{Printed, Visible, put};
use std::alloc::{AllocError, Global};

/// The location of a finding: the name of its file, with a text before it, and the line and the
/// column in it.
#[derive(Clone, Copy)]
pub struct Location<'l, 'n> {
    /// The text of the user before the name, if there is one.
    pub label: Option<&'l str>,
    /// The name of the file.
    pub name: &'n str,
    /// The number of the line, from 1 on, or 0 for the whole file.
    pub number: u64,
    /// The column in the line, from 1 on, or 0 for the whole line.
    pub column: u64,
}

impl<'l, 'n> Location<'l, 'n> {
    /// A whole file.
    pub fn file(label: Option<&'l str>, name: &'n str) -> Location<'l, 'n>
        ensures { place_of result ≡ file_place (label_now label.entry) name.now }
    {
        Location {
            label,
            name,
            number: 0,
            column: 0,
        }
    }

    /// A whole line of a file, without a label.
    pub fn line(name: &'n str, number: u64) -> Location<'l, 'n>
        ensures { place_of result ≡ line_place name.now number }
    {
        Location {
            label: None,
            name,
            number,
            column: 0,
        }
    }
}

impl<'l, 'n> Printed for Location<'l, 'n> {
    ghost text = { λ location. location_text (place_of location) };

    fn push_to(&self, out: &mut Vec<u8>) -> Result<(), AllocError> {
        put!(out; LabelOf(self.label), Visible(self.name.as_bytes(), false),
            Numbers(self.number, self.column))
    }
}

impl<'l, 'n> Fields for Location<'l, 'n> {
    ghost fields = { λ location. location_fields (place_of location) };

    fn put_fields(&self, alloc: Global, out: &mut LineWriter) -> Result<(), AllocError> {
        put_fields!(alloc, out; LabelOf(self.label), "file": self.name,
            Numbers(self.number, self.column))
    }
}

/// The text of the user before a name, if there is one: with control characters escaped, or as the
/// field `label` of an object.
#[derive(Clone, Copy)]
pub struct LabelOf<'a>(pub Option<&'a str>);

impl<'a> Printed for LabelOf<'a> {
    ghost text = { λ label. label_text (label_now label.0) };

    fn push_to(&self, out: &mut Vec<u8>) -> Result<(), AllocError> {
        match self.0 {
            None => Ok(()),
            Some(label) => put!(out; Visible(label.as_bytes(), false)),
        }
    }
}

impl<'a> Fields for LabelOf<'a> {
    ghost fields = { λ label. label_fields (label_now label.0) };

    #[tactic(auto, unfolding(json_lines::specs::Field::fields_tokens))]
    fn put_fields(&self, alloc: Global, out: &mut LineWriter) -> Result<(), AllocError> {
        match self.0 {
            None => Ok(()),
            Some(label) => put_fields!(alloc, out; "label": label),
        }
    }
}

// A line, and a column of it. There is no column without a line.
#[derive(Clone, Copy)]
struct Numbers(u64, u64);

impl Printed for Numbers {
    ghost text = { λ numbers. number_text numbers.0 numbers.1 };

    fn push_to(&self, out: &mut Vec<u8>) -> Result<(), AllocError> {
        if self.0 == 0 {
            return Ok(());
        }
        if self.1 == 0 {
            return put!(out; b":", self.0);
        }
        put!(out; b":", self.0, b":", self.1)
    }
}

impl Fields for Numbers {
    ghost fields = { λ numbers. number_fields numbers.0 numbers.1 };

    #[tactic(auto, unfolding(json_lines::specs::Field::fields_tokens))]
    fn put_fields(&self, alloc: Global, out: &mut LineWriter) -> Result<(), AllocError> {
        if self.0 == 0 {
            return Ok(());
        }
        if self.1 == 0 {
            return put_fields!(alloc, out; "line": self.0);
        }
        put_fields!(alloc, out; "line": self.0, "column": self.1)
    }
}
