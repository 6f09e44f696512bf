//! Showing single facts.

ghost use Rattle.std.specs.Prelude.{◌≡◌, ◌∷◌, []};
ghost use Rattle.run_output.specs.Carries.{Carries};
ghost use Rattle.list_text.specs.Facts.{fact_of};
ghost use Rattle.list_text.specs.Forms.{last_line};
ghost use Rattle.show_run.specs.Showing.{Shows, line_item};

use byte_streams::Sink;
use list_text::{Counts, Fact, Form};
use run_faults::RunFault;
use run_output::Run;

/// The name in the fault of a line for which there is no memory.
pub(crate) const MEMORY: &str = "memory";

/// Shows a fact, and counts it. Each call has the code of its own kind of fact alone.
#[inline(always)]
pub(crate) fn show_fact<'a, W: Sink>(
    run: &mut Run<'_, W>,
    counts: &mut Counts,
    form: Form<'_>,
    fact: Fact<'_>,
) -> Result<(), RunFault<'a>>
    ensures { Shows form.entry (fact_of fact.entry ∷ []) result run.old.printer run.new.printer
        counts.old counts.new }
{
    let made = form.write_fact(run.alloc, fact, &mut run.line);
    run.say_line(MEMORY, made)?;
    counts.add(fact);
    Ok(())
}

/// Shows the last line.
pub(crate) fn show_last<'a, W: Sink>(
    run: &mut Run<'_, W>,
    counts: Counts,
    form: Form<'_>,
) -> Result<(), RunFault<'a>>
    ensures { Carries (line_item (last_line form.entry counts) ∷ []) result run.old.printer
        run.new.printer }
{
    let made = form.write_last(counts, &mut run.line);
    run.say_line(MEMORY, made)
}
