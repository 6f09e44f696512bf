//! The least plan of a set of serials.

ghost use Rattle.std.specs.Prelude.{◌*◌, ◌≤◌, length, IfOk};
ghost use Rattle.krl_plan.specs.Copies.{AreStarts};
ghost use Rattle.krl_plan.specs.Plan.{IsLeastPlan, cost};

use crate::copies::copy_batch;
use crate::group::Group;
use crate::table::Table;
use serial_set::{Spans, next_after};
use std::alloc::{AllocError, Global};

// How many runs are copied from a set at a time.
const BATCH: usize = 1024;

/// The plan of a set's runs that costs least. Among plans that cost the same it is the one whose
/// group comes first where they differ: a list of serials, a range, a bitmap, and of the same sort
/// the longer. Fails only if an allocation fails.
pub fn least_plan<S: Spans>(alloc: Global, set: &S) -> Result<Vec<Group>, AllocError>
    ensures least { IfOk result (λ plan. IsLeastPlan (S.spans set.now) plan.items) }
    ensures small { IfOk result
        (λ plan. cost (S.spans set.now) plan.items ≤ 21 * length (S.spans set.now)) }
{
    // A set returns its runs from the first on, but they are planned from the last on.
    let mut starts = batch_starts(alloc, set)?;
    let mut table = Table::new(alloc);
    let mut batch = Vec::new(alloc);
    while let Some(number) = starts.pop() {
        copy_batch(set, number, BATCH, &mut batch)?;
        table.add_all(&batch)?;
    }
    table.plan(alloc)
}

// For each batch, the number from which on a set returns its runs, in ascending order.
fn batch_starts<S: Spans>(alloc: Global, set: &S) -> Result<Vec<u64>, AllocError>
    ensures { IfOk result (λ starts. AreStarts (S.spans set.now) starts.items) }
{
    let mut starts = Vec::new(alloc);
    let mut batch = Vec::new(alloc);
    let mut next = Some(0);
    while let Some(number) = next {
        copy_batch(set, number, BATCH, &mut batch)?;
        starts.push(number)?;
        next = next_after(&batch);
    }
    Ok(starts)
}
