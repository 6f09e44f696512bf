//! Findings, printed and counted.

ghost use Rattle.std.specs.Prelude.{◌≡◌, ◌∷◌, [], IfOk, List};
ghost use Rattle.krl_audit.specs.Audit.{JudgesAs};
ghost use Rattle.krl_types.specs.Subject.{Subject as SubjectOf};
ghost use Rattle.audit_text.specs.Answer.{Answer as AnswerOf};
ghost use Rattle.login_run.specs.Finding.{IsMade, Lacks, Placed, Tells, finding_of, place};
ghost use Rattle.login_text.specs.Outcome.{IsOutcome, Outcome as OutcomeOf};

use crate::judging::{LogLine, NotRead, judge_line, judge_unread};
use byte_streams::Sink;
use krl_audit::{Auditor, JudgedLine, say_made};
use run_faults::{Cause, RunFault};
use std::alloc::AllocError;

/// Prints the finding of a line, if it is to be printed, and counts it.
pub(crate) fn say_line<'a, W: Sink>(
    auditor: &mut Auditor<'_, '_, W>,
    at: LogLine<'a>,
    line: &[u8],
) -> Result<(), RunFault<'a>>
    ensures { (outcome : OutcomeOf) → IsOutcome line.now outcome → Tells auditor.old
        (place at.entry.name.now at.entry.number (finding_of outcome) ∷ []) result
        auditor.new }
{
    let run = &mut auditor.run;
    let made = judge_line(run.alloc, &auditor.judge, at, line, &mut run.line);
    say(auditor, at.name, made)
}

/// Prints why a line or a log is not read, if that is to be printed, and counts it.
pub(crate) fn say_not_read<'a, W: Sink>(
    auditor: &mut Auditor<'_, '_, W>,
    at: LogLine<'a>,
    why: NotRead,
) -> Result<(), RunFault<'a>>
    ensures { Tells auditor.old
        (place at.entry.name.now at.entry.number (Lacks why) ∷ []) result auditor.new }
{
    let run = &mut auditor.run;
    let made = judge_unread(run.alloc, &auditor.judge, at, why, &mut run.line);
    say(auditor, at.name, made)
}

// Prints a finding that was made, if it is to be printed, and counts it.
fn say<'a, W: Sink>(
    auditor: &mut Auditor<'_, '_, W>,
    name: &'a str,
    made: Result<JudgedLine, AllocError>,
) -> Result<(), RunFault<'a>>
    ensures { (placed : Placed) → placed.name ≡ name.now → ((answers : SubjectOf → AnswerOf)
        → JudgesAs auditor.old.judge answers → IfOk made (λ judged. IsMade answers
        auditor.old.judge.shown placed judged.kind judged.said auditor.old.run.line.items))
        → Tells auditor.old (placed ∷ []) result auditor.new }
{
    let Ok(judged) = made else {
        return Err(RunFault::whole(name, Cause::NoMemory));
    };
    say_made(&mut auditor.run, name, judged.said)?;
    auditor.counts = auditor.counts.with(judged.kind);
    Ok(())
}
