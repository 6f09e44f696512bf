//! The forms in which a list is shown.

ghost use Rattle.std.specs.Prelude.{◌≡◌, OnOk};
ghost use Rattle.list_text.specs.Facts.{fact_of};
ghost use Rattle.list_text.specs.Forms.{form_line, last_line};

use crate::counts::Counts;
use crate::fact::Fact;
use crate::line::{push_change, push_line, push_unnamed};
use crate::object::{write_done, write_object, write_unnamed};
use crate::side::Side;
use std::alloc::{AllocError, Global};
use text_entries::NamesByKey;

/// The form in which lists are shown, and the names of authorities, if some are given.
#[derive(Clone, Copy)]
pub enum Form<'n> {
    /// As text that can be read back.
    Text(Option<&'n NamesByKey>),
    /// As JSON objects.
    Json(Option<&'n NamesByKey>),
    /// As text without the names of the lists.
    Unnamed(Option<&'n NamesByKey>),
    /// As JSON objects without the names of the lists.
    JsonUnnamed(Option<&'n NamesByKey>),
    /// As text, each line with the mark of a side of a comparison.
    Change(Side, Option<&'n NamesByKey>),
    /// As JSON objects that say to which side of a comparison they belong.
    JsonChange(Side, Option<&'n NamesByKey>),
}

impl<'n> Form<'n> {
    /// Makes the line of a fact, with its line feed. It is empty for an authority as JSON, and for
    /// a plain list without its name.
    #[inline(always)]
    pub fn write_fact(
        self,
        alloc: Global,
        fact: Fact<'_>,
        line: &mut Vec<u8>,
    ) -> Result<(), AllocError>
        ensures { OnOk result (line.new.items ≡ form_line self.entry (fact_of fact.entry)) }
    {
        line.clear();
        match self {
            Form::Text(names) => push_line(alloc, names, fact, line),
            Form::Json(names) => write_object(names, None, fact, line),
            Form::Unnamed(names) => push_unnamed(alloc, names, fact, line),
            Form::JsonUnnamed(names) => write_unnamed(names, fact, line),
            Form::Change(side, names) => push_change(alloc, side, names, fact, line),
            Form::JsonChange(side, names) => write_object(names, Some(side), fact, line),
        }
    }

    /// Makes the line after all facts. It is empty but for lists as JSON.
    pub fn write_last(self, counts: Counts, line: &mut Vec<u8>) -> Result<(), AllocError>
        ensures { OnOk result (line.new.items ≡ last_line self.entry counts) }
    {
        match self {
            Form::Json(_) | Form::JsonUnnamed(_) => write_done(counts, line),
            Form::Text(_) | Form::Unnamed(_) | Form::Change(..) | Form::JsonChange(..) => {
                line.clear();
                Ok(())
            }
        }
    }
}
