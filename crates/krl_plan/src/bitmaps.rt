//! The best bitmap at the front of some runs.

ghost use Rattle.std.specs.Prelude.{ℕ, ◌+◌, ◌/◌, ◌%◌, ◌^◌, ◌<◌, ◌≤◌, List, [], ◌∷◌, length};
ghost use Rattle.std.specs.Prelude.{◌≡◌, OnOk};
ghost use Rattle.std.specs.Prelude.{slice_index_or as get_or};
ghost use Rattle.serial_set.specs.declared.span.Span.{Span};
ghost use Rattle.serial_set.specs.Span.{IsRuns};
ghost use Rattle.krl_plan.specs.declared.group.Sort.TheVariants.{Bitmap};
ghost use Rattle.krl_plan.specs.declared.monotonic_queue.MonotonicQueue.{MonotonicQueue};
ghost use Rattle.krl_plan.specs.MonotonicQueue.{Forgets};
ghost use Rattle.krl_plan.specs.Search.{IsBestOf, IsCell};

use crate::cell::{Cell, winner};
use crate::group::{Group, Sort};
use crate::monotonic_queue::{Candidate, MonotonicQueue};
use serial_set::Span;
use std::alloc::{AllocError, Global};

// The maximum distance of the bitmap's last serial from its first.
const FARTHEST: u128 = 2047;

// The bitmaps that begin at the first of the known runs. A bitmap costs 18 bytes and the whole
// bytes from its first serial to its last. If `after` is the serial after the last, these are
// `after / 8` minus `first / 8`, and one less if `after` has the smaller remainder. So only bitmaps
// whose `after` has the same remainder are compared with each other.
#[derive(Drop)]
pub(crate) struct Bitmaps {
    queues: [MonotonicQueue; 8],
}

impl Bitmaps {
    ghost use Rattle.krl_plan.specs.Bitmaps.{IsBitmap, IsBitmapOf, HasBitmaps};

    // The state before any run.
    pub(crate) fn new(alloc: Global) -> Bitmaps
        ensures { (at : ℕ) → HasBitmaps result at [] [] }
    {
        Bitmaps {
            queues: [
                MonotonicQueue::new(alloc),
                MonotonicQueue::new(alloc),
                MonotonicQueue::new(alloc),
                MonotonicQueue::new(alloc),
                MonotonicQueue::new(alloc),
                MonotonicQueue::new(alloc),
                MonotonicQueue::new(alloc),
                MonotonicQueue::new(alloc),
            ],
        }
    }

    // Adds the run at an index of the set, with the least cost of the runs after it.
    pub(crate) fn add(&mut self, run: Span, at: usize, rest: u128) -> Result<(), AllocError>
        requires below { at < usize.MAX }
        requires small { rest < 2 ^ 100 }
        requires bitmaps { (runs : List Span) × ((rests : List ℕ)
            × (IsRuns (run ∷ runs) × HasBitmaps self.old (at + 1) runs rests)) }
        ensures { (runs : List Span) (rests : List ℕ) → IsRuns (run ∷ runs)
            → HasBitmaps self.old (at + 1) runs rests
            → OnOk result (HasBitmaps self.new at (run ∷ runs) (rest ∷ rests)) }
    {
        let after = run.hi as u128 + 1;
        self.queues[(after % 8) as usize].push(Candidate {
            position: run.hi,
            value: after / 8 + rest,
            end: at + 1,
        })?;
        forget_past(&mut self.queues, run.lo as u128 + FARTHEST);
        Ok(())
    }

    // The best of a cell and of the bitmaps that the run at an index begins.
    pub(crate) fn best(&self, run: Span, at: usize, best: Cell) -> Cell
        requires bitmaps { (runs : List Span) × ((rests : List ℕ)
            × (IsRuns (run ∷ runs) × HasBitmaps self.now at (run ∷ runs) rests)) }
        ensures { (runs : List Span) (rests : List ℕ) → IsRuns (run ∷ runs)
            → HasBitmaps self.now at (run ∷ runs) rests → IsCell rests (run ∷ runs) best
            → IsBestOf rests (run ∷ runs) Bitmap (IsBitmap (run ∷ runs)) best result }
    {
        let mut best = best;
        for remainder in 0..8 {
            best = self.best_of(remainder, run, at, best);
        }
        best
    }

    // The best of a cell and of the bitmaps of one remainder.
    fn best_of(&self, remainder: usize, run: Span, at: usize, best: Cell) -> Cell
        requires remainder { remainder < 8 }
        requires bitmaps { (runs : List Span) × ((rests : List ℕ)
            × (IsRuns (run ∷ runs) × HasBitmaps self.now at (run ∷ runs) rests)) }
        ensures { (runs : List Span) (rests : List ℕ) → IsRuns (run ∷ runs)
            → HasBitmaps self.now at (run ∷ runs) rests → IsCell rests (run ∷ runs) best
            → IsBestOf rests (run ∷ runs) Bitmap (IsBitmapOf (run ∷ runs) remainder) best result }
    {
        let Some(candidate) = self.queues[remainder].least() else {
            return best
        };
        let group = Group {
            sort: Sort::Bitmap,
            count: (candidate.end - at) as u16,
        };
        let cost = 18 + (candidate.value - bytes_before(run.lo, remainder as u64) as u128);
        winner(best, Cell { cost, group })
    }
}

// An eighth of the first serial, plus one if `after` has the smaller remainder.
fn bytes_before(first: u64, remainder: u64) -> u64
    ensures less { remainder < first % 8 → result ≡ first / 8 + 1 }
    ensures more { first % 8 ≤ remainder → result ≡ first / 8 }
{
    if remainder < first % 8 {
        first / 8 + 1
    } else {
        first / 8
    }
}

// Forgets the candidates of each queue that are past a limit.
fn forget_past(queues: &mut [MonotonicQueue], limit: u128)
    ensures { (k : ℕ) (d : MonotonicQueue) → k < length queues.old
        → Forgets limit (get_or queues.old k d).candidates.items
        (get_or queues.new k d).candidates.items }
{
    for i in 0..queues.len() {
        queues[i].forget_past(limit);
    }
}
