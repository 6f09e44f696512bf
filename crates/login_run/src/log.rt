//! A log, from its first byte to its last.

ghost use Rattle.std.specs.Prelude.{◌≡◌, ◌∷◌, [], false};
ghost use Rattle.login_run.specs.Finding.{Lacks, Tells, place};
ghost use Rattle.login_run.specs.Log.{AuditsLog, EndsLog, IsRead, stop_findings};

use crate::batch::{LineStart, Stop, audit_batch, end_line};
use crate::finding::say_not_read;
use crate::judging::{LogLine, NotRead};
use audit_lines::Refusal;
use byte_streams::{Sink, Source};
use krl_audit::Auditor;
use login_text::LoginWhy;
use run_faults::RunFault;

// How many bytes are read at a time.
const BATCH: usize = 65_536;

/// Prints and counts the findings of the lines of a log. Returns false if its reader fails.
pub(crate) fn audit_log<'a, W: Sink, R: Source>(
    auditor: &mut Auditor<'_, '_, W>,
    name: &'a str,
    reader: &mut R,
) -> Result<bool, RunFault<'a>>
    requires { R.has_failed reader.old ≡ false }
    ensures { AuditsLog name.now (R.left reader.old) (R.left reader.new)
        (R.has_failed reader.new) result auditor.old auditor.new }
{
    let mut start = LineStart {
        number: 0,
        front: Vec::new(auditor.run.alloc),
    };
    let mut batch = [0; BATCH];
    'batches: for _batch in 0..u64::MAX {
        let Ok(count) = reader.read(&mut batch) else {
            return Ok(false);
        };
        if count == 0 {
            return end_log(auditor, name, &mut start);
        }
        if let Some(stop) = audit_batch(auditor, name, &mut start, &batch[..count])? {
            return say_stop(auditor, name, start.number, stop);
        }
    }
    say_rest(
        auditor,
        LogLine { name, number: 0 },
        NotRead::File(Refusal::TooLong),
    )
}

// Ends the last line of a log.
fn end_log<'a, W: Sink>(
    auditor: &mut Auditor<'_, '_, W>,
    name: &'a str,
    start: &mut LineStart,
) -> Result<bool, RunFault<'a>>
    ensures { EndsLog name.now start.old result auditor.old auditor.new }
{
    match end_line(auditor, name, start, &[])? {
        None => Ok(true),
        Some(stop) => say_stop(auditor, name, start.number, stop),
    }
}

// Prints why the rest of a log is not read, after this many lines, and counts it.
fn say_stop<'a, W: Sink>(
    auditor: &mut Auditor<'_, '_, W>,
    name: &'a str,
    lines: u64,
    stop: Stop,
) -> Result<bool, RunFault<'a>>
    ensures tells { Tells auditor.old (stop_findings name.now lines stop) result auditor.new }
    ensures read { IsRead result }
{
    let (number, why) = match stop {
        Stop::LongLine => (lines.saturating_add(1), LoginWhy::LongLine),
        Stop::Packed(packed) => (0, LoginWhy::Packed(packed)),
    };
    say_rest(auditor, LogLine { name, number }, NotRead::Log(why))
}

// Prints why the rest of a log is not read, and counts it.
fn say_rest<'a, W: Sink>(
    auditor: &mut Auditor<'_, '_, W>,
    at: LogLine<'a>,
    why: NotRead,
) -> Result<bool, RunFault<'a>>
    ensures tells { Tells auditor.old (place at.entry.name.now at.entry.number
        (Lacks why) ∷ []) result auditor.new }
    ensures read { IsRead result }
{
    say_not_read(auditor, at, why)?;
    Ok(true)
}
