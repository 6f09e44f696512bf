//! Adding the entry of a line of a specification file.

ghost use Rattle.std.specs.Prelude.{ℕ, List, length};
ghost use Rattle.krl_spec.specs.Adding.{AddsEntry, AddsLine};
ghost use Rattle.krl_spec.specs.Under.{authority_under};
ghost use Rattle.krl_spec.specs.Entries.{bare_entry, line_entry, text_entry};
ghost use Rattle.krl_spec.specs.Directive.{order_in};
ghost use Rattle.krl_spec.specs.Stored.{GrowsBy, GrowsUnder};

use crate::blanks::bare_line;
use crate::directive::order_in;
use crate::entries::{add_order, add_subject};
use crate::keys::{ask, key_line};
use crate::under::Under;
use krl_entries::Revocations;
use run_faults::SpecCause;
use serial_set::Spans;
use std::alloc::Global;

// Adds the entry of the content of a line without a directive.
#[tactic(auto, unfolding(keyed_lines::specs::Keys::subject_in))]
fn add_bare<S: Spans>(
    alloc: Global,
    revocations: &mut Revocations<S>,
    text: &[u8],
) -> Result<(), SpecCause>
    ensures adds { AddsEntry (bare_entry text.now) result revocations.old revocations.new }
    ensures grows { (current : List ℕ)
        → GrowsUnder current (length text.now) revocations.old revocations.new }
{
    let line = key_line(alloc, text)?;
    let asked = ask(alloc, line.blob.as_slice())?;
    add_subject(revocations, &asked)?;
    Ok(())
}

// Adds the entry of the content of a line.
fn add_text<S: Spans>(
    alloc: Global,
    revocations: &mut Revocations<S>,
    under: Under,
    text: &[u8],
) -> Result<(), SpecCause>
    ensures adds { AddsEntry (text_entry (authority_under under.entry) text.now (order_in text.now))
        result revocations.old revocations.new }
    ensures grows { GrowsBy (authority_under under.entry) text.now
        revocations.old revocations.new }
{
    let Some((directive, given)) = order_in(text) else {
        return add_bare(alloc, revocations, text);
    };
    add_order(alloc, revocations, under, directive, given)
}

/// Adds the entry of a line, if the line has content.
#[tactic(auto, unfolding(crate::specs::Entries::line_entry))]
pub fn add_line<S: Spans>(
    alloc: Global,
    revocations: &mut Revocations<S>,
    under: Under,
    line: &[u8],
) -> Result<(), SpecCause>
    ensures adds { AddsLine (line_entry (authority_under under.entry) line.now) result
        revocations.old revocations.new }
    ensures grows { GrowsBy (authority_under under.entry) line.now
        revocations.old revocations.new }
{
    let text = bare_line(line);
    if text.is_empty() {
        return Ok(());
    }
    add_text(alloc, revocations, under, text)
}
