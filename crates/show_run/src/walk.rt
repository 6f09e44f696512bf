//! Showing everything that is held.

ghost use Rattle.list_text.specs.Facts.{facts_of};
ghost use Rattle.show_run.specs.Showing.{Shows, list_facts, lists_facts};

use crate::printing::show_fact;
use any_list::List;
use byte_streams::Sink;
use krl_core::Revocations;
use list_text::{Counts, Fact, Form};
use run_faults::RunFault;
use run_output::Run;
use serial_set::Spans;

/// Shows lists, one after the other.
pub(crate) fn show_lists<'a, W: Sink>(
    run: &mut Run<'_, W>,
    counts: &mut Counts,
    form: Form<'_>,
    lists: &[List<'_>],
) -> Result<(), RunFault<'a>>
    ensures { Shows form.entry (lists_facts lists.now) result run.old.printer
        run.new.printer counts.old counts.new }
{
    for list in lists {
        show_list(run, counts, form, list)?;
    }
    Ok(())
}

// Shows a list: its name and header, and what it names.
fn show_list<'a, W: Sink>(
    run: &mut Run<'_, W>,
    counts: &mut Counts,
    form: Form<'_>,
    list: &List<'_>,
) -> Result<(), RunFault<'a>>
    ensures { Shows form.entry (list_facts list.now) result run.old.printer
        run.new.printer counts.old counts.new }
{
    show_fact(run, counts, form, Fact::List(list.name, list.header()))?;
    show_held(run, counts, form, &list.revocations)
}

/// Shows what is held, and counts it: each authority, with its serial numbers and key IDs, and then
/// keys and hashes.
pub fn show_held<'a, S: Spans, W: Sink>(
    run: &mut Run<'_, W>,
    counts: &mut Counts,
    form: Form<'_>,
    held: &Revocations<S>,
) -> Result<(), RunFault<'a>>
    ensures { Shows form.entry (facts_of held.now) result run.old.printer
        run.new.printer counts.old counts.new }
{
    for fact in held.facts() {
        show_fact(run, counts, form, Fact::Held(fact))?;
    }
    Ok(())
}
