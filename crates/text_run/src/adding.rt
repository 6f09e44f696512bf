//! Adding the entries of texts.

ghost use Rattle.std.specs.Prelude.{◌≡◌};
ghost use Rattle.text_run.specs.Making.{AddsText, AddsTexts, bytes_from, text_from};

use crate::make_fault::{MakeCause, MakeFault, line_fault};
use crate::text::Text;
use krl_entries::Revocations;
use serial_set::Spans;
use std::alloc::Global;
use text_entries::{Standing, read_text};

/// Adds the entries of each text, up to the first fault, and returns what stands then. The name
/// that a text gives to an authority is known in those after it. Today is given by its number from
/// 1970-01-01 on.
pub(crate) fn add_texts<'a, S: Spans>(
    alloc: Global,
    revocations: &mut Revocations<S>,
    today: u64,
    texts: &'a [Text<'a>],
) -> Result<Standing, MakeFault<'a>>
    ensures { AddsTexts today texts.now result revocations.old revocations.new }
{
    let mut standing = Standing::new(alloc, today);
    for text in texts {
        add_text(alloc, revocations, &mut standing, text)?;
    }
    Ok(standing)
}

// Adds the entries of a text behind others.
#[tactic(auto, unfolding(crate::specs::Making::text_from))]
fn add_text<'a, S: Spans>(
    alloc: Global,
    revocations: &mut Revocations<S>,
    standing: &mut Standing,
    text: &'a Text<'a>,
) -> Result<(), MakeFault<'a>>
    ensures { AddsText text.now.name (text_from standing.old text.now) result standing.new
        revocations.old revocations.new }
{
    match &text.content {
        Ok(bytes) => add_bytes(alloc, revocations, standing, text.name, bytes.as_slice()),
        Err(cause) => Err(MakeFault::whole(text.name, MakeCause::Run(*cause))),
    }
}

// Adds the entries of the bytes of a text.
fn add_bytes<'a, S: Spans>(
    alloc: Global,
    revocations: &mut Revocations<S>,
    standing: &mut Standing,
    name: &'a str,
    bytes: &'a [u8],
) -> Result<(), MakeFault<'a>>
    ensures { AddsText name.now (bytes_from standing.old name.now bytes.now) result standing.new
        revocations.old revocations.new }
{
    match read_text(alloc, revocations, standing, bytes) {
        Ok(()) => Ok(()),
        Err(fault) => Err(line_fault(name, bytes, fault)),
    }
}
