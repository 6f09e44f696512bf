//! Findings that are sent as soon as a file was audited. The next file may be slow to open, and a
//! reader of the findings does not wait for it.

ghost use Rattle.std.specs.Prelude.{◌≡◌, true};
ghost use Rattle.krl_types.specs.Subject.{Subject};
ghost use Rattle.audit_text.specs.Answer.{Answer};
ghost use Rattle.krl_audit.specs.Audit.{JudgesAs, ToldFile, content_of, name_by};
ghost use Rattle.run_output.specs.Carries.{Carries};
ghost use Rattle.audit_run.specs.Visits.{same_items};

use audit_lines::Refusal;
use byte_streams::Sink;
use krl_audit::{Auditor, FileName};
use run_faults::RunFault;

/// Audits a file, and sends its findings.
pub(crate) fn audit_and_send<'a, W: Sink>(
    auditor: &mut Auditor<'_, '_, W>,
    name: FileName<'a>,
    content: Result<&[u8], Refusal>,
) -> Result<(), RunFault<'a>>
    ensures told { (answers : Subject → Answer) → JudgesAs auditor.old.judge answers
        → ToldFile answers auditor.old.judge.shown (name_by name.entry)
        (content_of content.entry) result auditor.old.run.printer auditor.new.run.printer
        auditor.old.counts auditor.new.counts }
    ensures judge { auditor.new.judge ≡ auditor.old.judge }
{
    match auditor.audit_file(name, content) {
        Ok(()) => auditor.run.printer.flush(),
        Err(fault) => Err(fault),
    }
}

/// Prints that a name leads to a file that was audited before, if `is_told` is true.
pub(crate) fn say_same_if<'a, W: Sink>(
    auditor: &mut Auditor<'_, '_, W>,
    name: &'a str,
    is_told: bool,
) -> Result<(), RunFault<'a>>
    ensures said { Carries (same_items auditor.old.judge.shown is_told name.now) result
        auditor.old.run.printer auditor.new.run.printer }
    ensures judge { auditor.new.judge ≡ auditor.old.judge }
    ensures counts { auditor.new.counts ≡ auditor.old.counts }
{
    if is_told {
        say_same_and_send(auditor, name)
    } else {
        Ok(())
    }
}

// Says that a name leads to a file that was audited before, and sends this.
fn say_same_and_send<'a, W: Sink>(
    auditor: &mut Auditor<'_, '_, W>,
    name: &'a str,
) -> Result<(), RunFault<'a>>
    ensures said { Carries (same_items auditor.old.judge.shown true name.now) result
        auditor.old.run.printer auditor.new.run.printer }
    ensures judge { auditor.new.judge ≡ auditor.old.judge }
    ensures counts { auditor.new.counts ≡ auditor.old.counts }
{
    auditor.say_same(name)?;
    auditor.run.printer.flush()
}
