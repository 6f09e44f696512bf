//! Runs that are copied from a set.

ghost use Rattle.std.specs.Prelude.{◌≡◌, ◌≤◌, length, take, drop, IfOk, OnOk};
ghost use Rattle.serial_set.specs.Iteration.{since};
ghost use Rattle.krl_plan.specs.Copies.{Copies};

use serial_set::{Span, Spans};
use std::alloc::AllocError;

// Copies runs from where an iteration continues, until there are `count` or the iteration ends.
// Returns where the iteration continues then.
pub(crate) fn copy_runs<S: Spans>(
    set: &S,
    from: Option<u64>,
    count: usize,
    runs: &mut Vec<Span>,
) -> Result<Option<u64>, AllocError>
    ensures { IfOk result (Copies (S.spans set.now) count from runs.old.items runs.new.items) }
{
    let mut next = from;
    while runs.len() < count {
        let Some(number) = next else { return Ok(None) };
        let piece = set.piece_from(number);
        runs.extend_from_slice(piece.as_slice())?;
        next = piece.next();
    }
    Ok(next)
}

// Copies the runs from a number on: `count`, or all if there are fewer.
pub(crate) fn copy_batch<S: Spans>(
    set: &S,
    number: u64,
    count: usize,
    batch: &mut Vec<Span>,
) -> Result<(), AllocError>
    ensures { OnOk result (batch.new.items ≡ take count (since number (S.spans set.now))) }
{
    batch.clear();
    copy_runs(set, Some(number), count, batch)?;
    batch.truncate(count);
    Ok(())
}

// Removes the first `count` runs.
pub(crate) fn drop_first(runs: &mut Vec<Span>, count: usize)
    requires { count ≤ length runs.old.items }
    ensures { runs.new.items ≡ drop count runs.old.items }
{
    runs.drain(0..count);
}
