//! The check of a list that was read: one condition after the other, and the end.

ghost use Rattle.std.specs.Prelude.{◌≡◌, false};
ghost use Rattle.any_list.specs.List.{IsRead, stated_by};
ghost use Rattle.any_list.specs.Told.{Tells};
ghost use Rattle.check_run.specs.Run.{ChecksAll, ChecksList, EndsChecked, form_of};

use crate::conditions::{check_empty, check_format, check_limits, check_slow};
use crate::files::check_files;
use crate::host::Host;
use crate::limits::{Limits, Loaded};
use any_list::Given;
use audit_text::Format;
use byte_streams::Sink;
use krl_arguments::Check;
use krl_audit::Auditor;
use list_conditions::Checker;
use list_conditions::laws::{authorities_are_counted, nobody_is_named};
use run_faults::RunFault;
use run_output::{Done, Printer, Run};
use std::alloc::Global;

/// A list that was read, the task, and what was read before the list.
#[derive(Clone, Copy)]
pub(crate) struct Job<'a, 'g> {
    pub(crate) given: &'g Given<'a>,
    pub(crate) task: &'g Check<'a>,
    pub(crate) loaded: Loaded<'a, 'g>,
}

/// Checks a list that was read, by its limits.
pub(crate) fn check_by<'a, H: Host, W: Sink>(
    alloc: Global,
    job: Job<'a, '_>,
    limits: Limits<'a, '_, '_>,
    host: &mut H,
    out: &mut W,
) -> Done<'a>
    requires read { IsRead job.given.now }
    requires working { W.has_failed out.old ≡ false }
    ensures { Tells (H.Lists.told host.old) (H.Lists.told host.new)
        (λ told. EndsChecked told job.entry.given.now.list.name.now
        job.entry.given.now.bytes job.entry.task.now limits.entry
        (W.taken out.old) (W.taken out.new) (W.has_failed out.new) result.status result.fault) }
{
    let mut buffer = Vec::new(alloc);
    let printer = Printer::new(&mut buffer, out);
    let form = form_of(job.task);
    let mut checker = Checker::new(alloc, &job.given.list.revocations, form, printer);
    let stop = check_all(&mut checker, job, limits, host);
    let done = checker.finish(stop.err());
    let Checker { auditor, .. } = checker;
    let Auditor { run, .. } = auditor;
    let Run {
        printer,
        line: _line,
        ..
    } = run;
    let Printer { out: _out, .. } = printer;
    done
}

// The form in which a task wants what is printed.
fn form_of(task: &Check) -> Format
    ensures { result ≡ form_of task.now }
{
    if task.json {
        Format::Json
    } else {
        Format::Text
    }
}

// Checks each condition.
fn check_all<'a, H: Host, W: Sink>(
    checker: &mut Checker<'_, '_, W>,
    job: Job<'a, '_>,
    limits: Limits<'a, '_, '_>,
    host: &mut H,
) -> Result<(), RunFault<'a>>
    requires read { IsRead job.given.now }
    requires judge { checker.old.auditor.judge.list.now ≡ job.given.now.list.revocations }
    requires form { checker.old.auditor.judge.shown.format ≡ form_of job.task.now }
    requires refused { checker.old.refused ≡ false }
    requires unread { checker.old.unread ≡ false }
    ensures all { Tells (H.Lists.told host.old) (H.Lists.told host.new)
        (λ told. ChecksAll told job.entry.given.now.list.name.now
        job.entry.given.now.bytes job.entry.task.now limits.entry
        result checker.old.auditor.run.printer checker.new.auditor.run.printer
        checker.new.refused checker.new.unread) }
    ensures writer { checker.new.auditor.run.printer.writer
        ≡ checker.old.auditor.run.printer.writer }
{
    nobody_is_named();
    authorities_are_counted();
    check_list(checker, job, limits)?;
    check_files(checker, host, job.task)?;
    let given = job.given;
    checker.say_end(given.list.name)
}

// Checks each condition for the list itself.
fn check_list<'a, W: Sink>(
    checker: &mut Checker<'_, '_, W>,
    job: Job<'a, '_>,
    limits: Limits<'a, '_, '_>,
) -> Result<(), RunFault<'a>>
    requires { IsRead job.given.now }
    ensures checks { ChecksList checker.old.auditor.judge.shown.format
        job.entry.given.now.list.name.now job.entry.given.now.bytes
        (stated_by job.entry.given.now.list.header) checker.old.auditor.judge.list.now
        job.entry.task.now limits.entry result checker.old.auditor.run.printer
        checker.new.auditor.run.printer checker.old.refused checker.new.refused }
    ensures unread { checker.new.unread ≡ checker.old.unread }
    ensures judge { checker.new.auditor.judge ≡ checker.old.auditor.judge }
{
    let given = job.given;
    let name = given.list.name;
    let stated = given.list.stated();
    check_format(checker, given)?;
    check_empty(checker, name, job.task.allow_empty)?;
    check_slow(checker, name, job.task.max_cas)?;
    check_limits(checker, name, stated, limits)
}
