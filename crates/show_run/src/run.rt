//! The whole run that shows lists.

ghost use Rattle.std.specs.Prelude.{◌≡◌, false};
ghost use Rattle.any_list.specs.Told.{Tells};
ghost use Rattle.run_output.specs.Carries.{Carries};
ghost use Rattle.show_run.specs.Run.{EndsShowRun, EndsShown, run_items};

use crate::lists::read_lists;
use crate::printing::show_last;
use crate::walk::show_lists;
use any_list::{List, Lists};
use byte_streams::Sink;
use list_text::{Counts, Form};
use run_faults::RunFault;
use run_output::{Done, FAILED, Printer, Run};
use std::alloc::Global;

/// Shows the lists of these names, one after the other. Each is read once, and all of them before
/// anything is printed, so that no list is missing from what is printed. The status is 255 if a
/// list was not read or the run was stopped, otherwise 0.
pub fn show_run<'a, L: Lists, W: Sink>(
    alloc: Global,
    lists: &mut L,
    names: &[&'a str],
    form: Form<'_>,
    out: &mut W,
) -> Done<'a>
    requires { W.has_failed out.old ≡ false }
    ensures { Tells (L.told lists.old) (L.told lists.new) (λ told. EndsShowRun told names.now
        form.entry (W.taken out.old) (W.taken out.new) (W.has_failed out.new) result.status
        result.fault) }
{
    match read_lists(alloc, lists, names) {
        Ok(read) => show_all(alloc, read.as_slice(), form, out),
        Err(fault) => Done {
            status: FAILED,
            fault: Some(fault),
        },
    }
}

// Shows lists that were read.
fn show_all<'a, W: Sink>(alloc: Global, lists: &[List<'_>], form: Form<'_>, out: &mut W) -> Done<'a>
    requires { W.has_failed out.old ≡ false }
    ensures { EndsShown form.entry lists.now (W.taken out.old) (W.taken out.new)
        (W.has_failed out.new) result.status result.fault }
{
    let mut buffer = Vec::new(alloc);
    let printer = Printer::new(&mut buffer, out);
    let line = Vec::new(alloc);
    let mut run = Run {
        alloc,
        printer,
        line,
    };
    let stop = show_each(&mut run, form, lists);
    let done = run.printer.finish(stop.err());
    let Run {
        printer,
        line: _line,
        ..
    } = run;
    let Printer { out: _out, .. } = printer;
    done
}

// Shows the lists and the last line.
fn show_each<'a, W: Sink>(
    run: &mut Run<'_, W>,
    form: Form<'_>,
    lists: &[List<'_>],
) -> Result<(), RunFault<'a>>
    ensures { Carries (run_items form.entry lists.now) result run.old.printer run.new.printer }
{
    let mut counts = Counts::NONE;
    show_lists(run, &mut counts, form, lists)?;
    show_last(run, counts, form)
}
