//! The lines of texts, by what they name, and the names of authorities.

ghost use Rattle.std.specs.Prelude.{◌≡◌, IfErr, IfOk};
ghost use Rattle.text_run.specs.Indexed.{IndexesText, IndexesTexts, bytes_named, text_named};
ghost use Rattle.text_run.specs.Making.{IsUnnamed, bytes_from, day_at, text_from};

use crate::inputs::day_of;
use crate::make_fault::{MakeCause, MakeFault, line_fault};
use crate::names::MEMORY;
use crate::text::Text;
use krl_fingerprints::KeysBy;
use run_faults::Cause;
use std::alloc::Global;
use text_entries::Standing;
use text_index::TextIndex;
use text_index::laws::lines_have_what_is_read;

/// The lines of texts by what they name, and the names that the texts give to authorities, for
/// queries that give keys so, or the first fault of the texts. The date, in seconds since 1970,
/// decides which of the lines are over.
pub fn index_in<'a>(
    alloc: Global,
    by: KeysBy,
    date: u64,
    texts: &'a [Text<'a>],
) -> Result<TextIndex<'a>, MakeFault<'a>>
    ensures indexed { IfOk result (IndexesTexts by (day_at date) texts.now) }
    ensures refused { IfErr result (IsUnnamed (day_at date) texts.now) }
{
    let mut index = TextIndex::new(alloc, by);
    let mut standing = Standing::new(alloc, day_of(date));
    for text in texts {
        index_text(alloc, &mut index, &mut standing, text)?;
    }
    match index.name_authorities(&standing) {
        Ok(()) => Ok(index),
        Err(_) => Err(MakeFault::whole(MEMORY, MakeCause::Run(Cause::NoMemory))),
    }
}

// Adds the lines of a text behind those of others.
#[tactic(auto, unfolding(crate::specs::Making::text_from))]
fn index_text<'a>(
    alloc: Global,
    index: &mut TextIndex<'a>,
    standing: &mut Standing,
    text: &'a Text<'a>,
) -> Result<(), MakeFault<'a>>
    ensures { IndexesText text.now.name (text_from standing.old text.now) result standing.new
        (text_named index.old.by standing.old text.now) index.old index.new }
{
    match &text.content {
        Ok(bytes) => index_bytes(alloc, index, standing, text.name, bytes.as_slice()),
        Err(cause) => Err(MakeFault::whole(text.name, MakeCause::Run(*cause))),
    }
}

// Adds the lines of the bytes of a text.
fn index_bytes<'a>(
    alloc: Global,
    index: &mut TextIndex<'a>,
    standing: &mut Standing,
    name: &'a str,
    bytes: &'a [u8],
) -> Result<(), MakeFault<'a>>
    ensures { IndexesText name.now (bytes_from standing.old name.now bytes.now) result standing.new
        (bytes_named index.old.by standing.old name.now bytes.now) index.old index.new }
{
    lines_have_what_is_read();
    match index.add_text(alloc, standing, name, bytes) {
        Ok(()) => Ok(()),
        Err(fault) => Err(line_fault(name, bytes, fault)),
    }
}
