//! The lines of a log that a batch of its bytes ends.

ghost use Rattle.std.specs.Prelude.{◌≡◌, ◌++◌, ◌<◌, length};
ghost use Rattle.login_run.specs.Log.{BeginsLine, EndsLine, Takes, parts_of};

use crate::feed::split_at_feed;
use crate::finding::say_line;
use crate::judging::LogLine;
use crate::packed::packed_at;
use byte_streams::Sink;
use krl_audit::Auditor;
use login_text::Packed;
use run_faults::{Cause, LIMIT, RunFault};
use std::alloc::Global;

/// How many lines of a log have ended, and the bytes of the next line that came so far.
#[derive(Drop)]
pub(crate) struct LineStart {
    pub(crate) number: u64,
    pub(crate) front: Vec<u8>,
}

/// Why the rest of a log is not read.
#[derive(Clone, Copy)]
pub(crate) enum Stop {
    /// A line has more bytes than a line may have.
    LongLine,
    /// The log is not text.
    Packed(Packed),
}

/// Prints and counts the findings of the lines that a batch ends, and keeps the beginning of the
/// next line. Returns why the rest of the log is not read, if so.
pub(crate) fn audit_batch<'a, W: Sink>(
    auditor: &mut Auditor<'_, '_, W>,
    name: &'a str,
    start: &mut LineStart,
    batch: &[u8],
) -> Result<Option<Stop>, RunFault<'a>>
    ensures { Takes name.now (parts_of batch.now) start.old start.new result auditor.old
        auditor.new }
{
    let mut rest = batch;
    'parts: loop {
        let (part, after) = split_at_feed(rest);
        let Some(after) = after else {
            return begin_line(name, start, part);
        };
        if let Some(stop) = end_line(auditor, name, start, part)? {
            return Ok(Some(stop));
        }
        rest = after;
    }
}

// Keeps bytes of the line that has begun, unless there are too many.
fn begin_line<'a>(
    name: &'a str,
    start: &mut LineStart,
    part: &[u8],
) -> Result<Option<Stop>, RunFault<'a>>
    ensures { BeginsLine name.now part.now start.old start.new result }
{
    if start.front.len().saturating_add(part.len()) > LIMIT as usize {
        return Ok(Some(Stop::LongLine));
    }
    match start.front.extend_from_slice(part) {
        Ok(()) => Ok(None),
        Err(_) => Err(RunFault::whole(name, Cause::NoMemory)),
    }
}

/// Ends the line that has begun with these bytes, and prints and counts its finding.
pub(crate) fn end_line<'a, W: Sink>(
    auditor: &mut Auditor<'_, '_, W>,
    name: &'a str,
    start: &mut LineStart,
    part: &[u8],
) -> Result<Option<Stop>, RunFault<'a>>
    ensures { EndsLine name.now part.now start.old start.new result auditor.old auditor.new }
{
    if let Some(stop) = begin_line(name, start, part)? {
        return Ok(Some(stop));
    }
    if let Some(packed) = packed_at(start.number, start.front.as_slice()) {
        return Ok(Some(Stop::Packed(packed)));
    }
    let number = start.number.saturating_add(1);
    say_line(auditor, LogLine { name, number }, start.front.as_slice())?;
    start.front.clear();
    start.number = number;
    Ok(None)
}
