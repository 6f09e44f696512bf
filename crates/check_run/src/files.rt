//! The conditions for the keys of files.

ghost use Rattle.std.specs.Prelude.{◌≡◌, ◌∷◌, [], List};
ghost use Rattle.krl_entries.specs.Reasons.{reasons_of};
ghost use Rattle.krl_entries.specs.Revocations.{Means};
ghost use Rattle.krl_types.specs.Entry.{Entry};
ghost use Rattle.any_list.specs.Told.{Tells};
ghost use Rattle.check_run.specs.Files.{ChecksFiles, files_of, named, named_all};

use crate::host::Host;
use byte_streams::Sink;
use krl_arguments::Check;
use list_conditions::{Checker, Role};
use run_faults::{Cause, RunFault};

/// Checks the keys of the files that must not be revoked, and of those that must be.
pub(crate) fn check_files<'a, H: Host, W: Sink>(
    checker: &mut Checker<'_, '_, W>,
    host: &mut H,
    task: &Check<'a>,
) -> Result<(), RunFault<'a>>
    ensures checks { Tells (H.Lists.told host.old) (H.Lists.told host.new)
        (λ told. (entries : List Entry) → Means checker.old.auditor.judge.list.now entries
        → ChecksFiles told checker.old.auditor.judge.shown.format (reasons_of entries)
        (files_of task.now) result checker.old.auditor.run.printer
        checker.new.auditor.run.printer checker.old.refused checker.new.refused
        checker.old.unread checker.new.unread) }
    ensures form { checker.new.auditor.judge.shown.format ≡ checker.old.auditor.judge.shown.format }
{
    check_each(checker, host, Role::Keep, task.keep.as_slice())?;
    check_each(checker, host, Role::Canary, task.canary.as_slice())
}

// Checks the keys of each of these files.
fn check_each<'a, H: Host, W: Sink>(
    checker: &mut Checker<'_, '_, W>,
    host: &mut H,
    role: Role,
    names: &[&'a str],
) -> Result<(), RunFault<'a>>
    ensures checks { Tells (H.Lists.told host.old) (H.Lists.told host.new)
        (λ told. (entries : List Entry) → Means checker.old.auditor.judge.list.now entries
        → ChecksFiles told checker.old.auditor.judge.shown.format (reasons_of entries)
        (named_all role names.now) result checker.old.auditor.run.printer
        checker.new.auditor.run.printer checker.old.refused checker.new.refused
        checker.old.unread checker.new.unread) }
    ensures list { checker.new.auditor.judge.list ≡ checker.old.auditor.judge.list }
    ensures form { checker.new.auditor.judge.shown.format ≡ checker.old.auditor.judge.shown.format }
{
    for name in names {
        check_file(checker, host, role, *name)?;
    }
    Ok(())
}

// Checks the keys of a file.
fn check_file<'a, H: Host, W: Sink>(
    checker: &mut Checker<'_, '_, W>,
    host: &mut H,
    role: Role,
    name: &'a str,
) -> Result<(), RunFault<'a>>
    ensures checks { Tells (H.Lists.told host.old) (H.Lists.told host.new)
        (λ told. (entries : List Entry) → Means checker.old.auditor.judge.list.now entries
        → ChecksFiles told checker.old.auditor.judge.shown.format (reasons_of entries)
        (named role name.now ∷ []) result checker.old.auditor.run.printer
        checker.new.auditor.run.printer checker.old.refused checker.new.refused
        checker.old.unread checker.new.unread) }
    ensures list { checker.new.auditor.judge.list ≡ checker.old.auditor.judge.list }
    ensures form { checker.new.auditor.judge.shown.format ≡ checker.old.auditor.judge.shown.format }
{
    let mut text = Vec::new(checker.auditor.run.alloc);
    match host.read_keys(name, &mut text) {
        Ok(Ok(())) => checker.check_keys(role, name, Ok(text.as_slice())),
        Ok(Err(refusal)) => checker.check_keys(role, name, Err(refusal)),
        Err(_) => Err(RunFault::whole(name, Cause::NoMemory)),
    }
}
