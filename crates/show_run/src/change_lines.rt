//! The lines of changes.

ghost use Rattle.std.specs.Prelude.{◌≡◌, IfOk};
ghost use Rattle.run_output.specs.Carries.{Carries};
ghost use Rattle.show_run.specs.ChangeLines.{change_items, last_items, side_counts, side_form};
ghost use Rattle.show_run.specs.ChangeLines.{side_items};

use crate::changes::Changes;
use crate::comparison::Comparison;
use crate::printing::MEMORY;
use crate::walk::show_held;
use byte_streams::Sink;
use krl_core::Revocations;
use list_text::{Counts, Form, Side, write_changes};
use run_faults::RunFault;
use run_output::Run;
use span_sets::Held;

/// Prints what was added, then what was removed, and as JSON a last line.
pub(crate) fn print_each<'a, W: Sink>(
    run: &mut Run<'_, W>,
    comparison: Comparison<'_, '_>,
    changes: &Changes,
) -> Result<(), RunFault<'a>>
    ensures { Carries (change_items comparison.entry changes.now) result run.old.printer
        run.new.printer }
{
    let added = print_side(run, comparison, Side::Added, &changes.added)?;
    let removed = print_side(run, comparison, Side::Removed, &changes.removed)?;
    print_last(run, comparison.json, added, removed)
}

// Prints what one of the lists names and the other does not, and counts it.
fn print_side<'a, W: Sink>(
    run: &mut Run<'_, W>,
    comparison: Comparison<'_, '_>,
    side: Side,
    held: &Revocations<Held>,
) -> Result<Counts, RunFault<'a>>
    ensures carries { Carries (side_items comparison.entry side held.now) result run.old.printer
        run.new.printer }
    ensures counts { IfOk result (λ counts. counts ≡ side_counts held.now) }
{
    let mut counts = Counts::NONE;
    show_held(run, &mut counts, side_form(comparison, side), held)?;
    Ok(counts)
}

// The form in which the changes of a side are printed.
fn side_form<'n>(comparison: Comparison<'_, 'n>, side: Side) -> Form<'n>
    ensures { result ≡ side_form comparison.entry side }
{
    if comparison.json {
        Form::JsonChange(side, comparison.names)
    } else {
        Form::Change(side, comparison.names)
    }
}

// Prints the last line, which only JSON has.
fn print_last<'a, W: Sink>(
    run: &mut Run<'_, W>,
    json: bool,
    added: Counts,
    removed: Counts,
) -> Result<(), RunFault<'a>>
    ensures { Carries (last_items json added removed) result run.old.printer run.new.printer }
{
    if json {
        let made = write_changes(added, removed, &mut run.line);
        return run.say_line(MEMORY, made);
    }
    Ok(())
}
