//! The version of a list, printed alone.

ghost use Rattle.std.specs.Prelude.{◌≡◌, ◌∷◌, [], false};
ghost use Rattle.any_list.specs.List.{stated_by};
ghost use Rattle.run_output.specs.Carries.{Carries};
ghost use Rattle.run_output.specs.Done.{Ends};
ghost use Rattle.run_output.specs.Run.{said_of};
ghost use Rattle.check_run.specs.Version.{PrintsVersion, version_text};

use crate::limits::Unanswered;
use any_list::List;
use byte_streams::Sink;
use line_pieces::put;
use run_faults::RunFault;
use run_output::{Done, Printer, Run};
use std::alloc::Global;

/// Prints the version of a list that was read, if it has one.
pub(crate) fn print_version<'a, W: Sink>(
    alloc: Global,
    list: &List<'a>,
    out: &mut W,
) -> Result<Done<'a>, Unanswered>
    requires { W.has_failed out.old ≡ false }
    ensures { PrintsVersion list.now.name.now (stated_by list.now.header) (W.taken out.old)
        (W.taken out.new) (W.has_failed out.new) result }
{
    match list.stated() {
        Some(stated) => Ok(say_version(alloc, list.name, stated.version, out)),
        None => Err(Unanswered::Version),
    }
}

// Prints the version of the list of this name, and ends the run.
fn say_version<'a, W: Sink>(alloc: Global, name: &'a str, version: u64, out: &mut W) -> Done<'a>
    requires { W.has_failed out.old ≡ false }
    ensures { Ends (said_of name.now (version_text version) ∷ []) (W.taken out.old)
        (W.taken out.new) (W.has_failed out.new) result.status result.fault }
{
    let mut buffer = Vec::new(alloc);
    let printer = Printer::new(&mut buffer, out);
    let line = Vec::new(alloc);
    let mut run = Run {
        alloc,
        printer,
        line,
    };
    let stop = say_line(&mut run, name, version);
    let done = run.printer.finish(stop.err());
    let Run {
        printer,
        line: _line,
        ..
    } = run;
    let Printer { out: _out, .. } = printer;
    done
}

// Prints the line of a version.
fn say_line<'a, W: Sink>(
    run: &mut Run<'_, W>,
    name: &'a str,
    version: u64,
) -> Result<(), RunFault<'a>>
    ensures { Carries (said_of name.now (version_text version) ∷ []) result run.old.printer
        run.new.printer }
{
    run.line.clear();
    let made = put!(&mut run.line; version, b"\n");
    run.say_line(name, made)
}
