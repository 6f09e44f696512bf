//! Logs, one after another.

ghost use Rattle.std.specs.Prelude.{◌≡◌, IfSome, false, not};
ghost use Rattle.audit_run.specs.Reading.{InputFails, SomeFailed, left_in};
ghost use Rattle.login_run.specs.Finding.{Tells};
ghost use Rattle.login_run.specs.Visits.{TellsLog, Visits, VisitsAll, VisitsFile, refused};

use crate::finding::say_not_read;
use crate::judging::{LogLine, NotRead};
use crate::log::audit_log;
use audit_lines::Refusal;
use audit_run::Tree;
use byte_streams::{Sink, Source};
use krl_audit::Auditor;
use run_faults::{Cause, RunFault};

/// Prints and counts the findings of logs, of which `-` is standard input. If nothing is printed, it
/// ends after the first log with a revoked login. Returns how many logs were visited.
pub(crate) fn visit_all<'a, T: Tree, I: Source + Drop, W: Sink>(
    auditor: &mut Auditor<'_, '_, W>,
    tree: &T,
    names: &'a [&'a str],
    input: &mut Option<I>,
) -> Result<u64, RunFault<'a>>
    requires { IfSome input.old (λ input. I.has_failed input ≡ false) }
    ensures { VisitsAll (T.states tree.now) (SomeFailed I.has_failed)
        (not auditor.old.judge.shown.revoked) 0 names.now (left_in I.left input.old) result
        auditor.old auditor.new }
{
    let mut count: u64 = 0;
    for name in names {
        visit(auditor, tree, *name, input)?;
        count = count.saturating_add(1);
        if !auditor.judge.shown.revoked && auditor.counts.revoked > 0 {
            return Ok(count);
        }
    }
    Ok(count)
}

// Prints and counts the findings of a log.
fn visit<'a, T: Tree, I: Source + Drop, W: Sink>(
    auditor: &mut Auditor<'_, '_, W>,
    tree: &T,
    name: &'a str,
    input: &mut Option<I>,
) -> Result<(), RunFault<'a>>
    requires { IfSome input.old (λ input. I.has_failed input ≡ false) }
    ensures visits { Visits (T.states tree.now) (SomeFailed I.has_failed) name.now
        (left_in I.left input.old) (left_in I.left input.new) result auditor.old auditor.new }
    ensures working { IfSome input.new (λ input. I.has_failed input ≡ false) }
{
    if name != "-" {
        return visit_file(auditor, tree, name);
    }
    match input.take() {
        Some(reader) => visit_input(auditor, name, reader),
        None => Ok(()),
    }
}

// Prints and counts the findings of standard input.
fn visit_input<'a, I: Source + Drop, W: Sink>(
    auditor: &mut Auditor<'_, '_, W>,
    name: &'a str,
    input: I,
) -> Result<(), RunFault<'a>>
    requires { I.has_failed input ≡ false }
    ensures { TellsLog (InputFails (SomeFailed I.has_failed)) name.now (I.left input) result
        auditor.old auditor.new }
{
    let mut reader = input;
    if audit_log(auditor, name, &mut reader)? {
        return Ok(());
    }
    refuse(auditor, name, Refusal::Read)
}

// Prints and counts the findings of a file.
fn visit_file<'a, T: Tree, W: Sink>(
    auditor: &mut Auditor<'_, '_, W>,
    tree: &T,
    name: &'a str,
) -> Result<(), RunFault<'a>>
    ensures { VisitsFile (T.states tree.now) name.now result auditor.old auditor.new }
{
    let opened = match tree.open(name, None) {
        Ok(Ok(opened)) => opened,
        Ok(Err(refusal)) => return refuse(auditor, name, refusal),
        Err(_) => return Err(RunFault::whole(name, Cause::NoMemory)),
    };
    let mut file = opened.file;
    if audit_log(auditor, name, &mut file)? {
        return Ok(());
    }
    let refusal = tree.why_unread(name, &file);
    refuse(auditor, name, refusal)
}

// Prints why a log is not read, if that is to be printed, and counts it.
fn refuse<'a, W: Sink>(
    auditor: &mut Auditor<'_, '_, W>,
    name: &'a str,
    refusal: Refusal,
) -> Result<(), RunFault<'a>>
    ensures { Tells auditor.old (refused name.now refusal) result auditor.new }
{
    let log = LogLine { name, number: 0 };
    say_not_read(auditor, log, NotRead::File(refusal))
}
