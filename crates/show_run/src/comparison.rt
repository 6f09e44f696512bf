//! The whole run that compares two lists.

ghost use Rattle.std.specs.Prelude.{◌≡◌, false};
ghost use Rattle.any_list.specs.Told.{Tells};
ghost use Rattle.show_run.specs.Comparison.{EndsDiffRun, EndsPrinted, status_of};

use crate::change_lines::print_each;
use crate::changes::{Changes, read_changes};
use any_list::Lists;
use byte_streams::Sink;
use list_diff::laws::same_without_difference;
use run_faults::RunFault;
use run_output::{Done, FAILED, Printer, Run};
use std::alloc::Global;
use text_entries::NamesByKey;

/// Two lists that are compared, by the names of their files, and how their difference is printed.
#[derive(Clone, Copy)]
pub struct Comparison<'a, 'n> {
    /// The old list.
    pub old: &'a str,
    /// The new list.
    pub new: &'a str,
    /// True if JSON objects are printed.
    pub json: bool,
    /// The names of authorities, if some are given.
    pub names: Option<&'n NamesByKey>,
}

/// Compares two lists by what they name: prints what only the new one names, and then what only the
/// old one names. Each is read once, the old one first, and both before anything is printed. The
/// status is 255 if a list was not read or the run was stopped, otherwise 1 if one names something
/// that the other does not, otherwise 0.
pub fn diff_run<'a, L: Lists, W: Sink>(
    alloc: Global,
    lists: &mut L,
    comparison: Comparison<'a, '_>,
    out: &mut W,
) -> Done<'a>
    requires { W.has_failed out.old ≡ false }
    ensures { Tells (L.told lists.old) (L.told lists.new) (λ told. EndsDiffRun told comparison.entry
        (W.taken out.old) (W.taken out.new) (W.has_failed out.new) result.status result.fault) }
{
    same_without_difference();
    match read_changes(alloc, lists, comparison.old, comparison.new) {
        Ok(changes) => print_changes(alloc, comparison, &changes, out),
        Err(fault) => Done {
            status: FAILED,
            fault: Some(fault),
        },
    }
}

// Prints the changes, and ends the run.
fn print_changes<'a, W: Sink>(
    alloc: Global,
    comparison: Comparison<'_, '_>,
    changes: &Changes,
    out: &mut W,
) -> Done<'a>
    requires { W.has_failed out.old ≡ false }
    ensures { EndsPrinted comparison.entry changes.now (W.taken out.old) (W.taken out.new)
        (W.has_failed out.new) result.status result.fault }
{
    let mut buffer = Vec::new(alloc);
    let printer = Printer::new(&mut buffer, out);
    let line = Vec::new(alloc);
    let mut run = Run {
        alloc,
        printer,
        line,
    };
    let stop = print_each(&mut run, comparison, changes);
    let done = run.printer.finish(stop.err());
    let Run {
        printer,
        line: _line,
        ..
    } = run;
    let Printer { out: _out, .. } = printer;
    let fault = done.fault;
    let status = status_of(changes.is_none(), &fault);
    Done { status, fault }
}

// The exit status.
fn status_of(same: bool, fault: &Option<RunFault>) -> u8
    ensures { result ≡ status_of same fault.now }
{
    match (fault, same) {
        (Some(_), _) => FAILED,
        (None, true) => 0,
        (None, false) => 1,
    }
}
