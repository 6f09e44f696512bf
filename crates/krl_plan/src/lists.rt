//! The best list of serials at the front of some runs.

ghost use Rattle.std.specs.Prelude.{ℕ, ◌+◌, ◌^◌, ◌<◌, ◌≤◌, List, [], ◌∷◌, OnOk};
ghost use Rattle.serial_set.specs.declared.span.Span.{Span};
ghost use Rattle.krl_plan.specs.declared.group.Sort.TheVariants.{Serials};
ghost use Rattle.krl_plan.specs.Search.{IsBestOf, IsCell};

use crate::cell::{Cell, winner};
use crate::group::{Group, Sort};
use crate::monotonic_queue::{Candidate, MonotonicQueue};
use serial_set::Span;
use std::alloc::{AllocError, Global};

// The maximum number of runs in a list; any more go into another.
pub(crate) const MOST: usize = 1024;

// The lists that begin at the first of the known runs. Together with the runs after it, a list
// costs 5 bytes plus the amount by which its candidate's value is above the base. The base
// decreases by the bytes of each serial that is added, so that the values stay unchanged.
#[derive(Drop)]
pub(crate) struct Lists {
    queue: MonotonicQueue,
    base: u128,
}

impl Lists {
    ghost use Rattle.krl_plan.specs.Lists.{IsList, HasLists};

    // The state before any of `runs` runs. None of these has more than two serials.
    pub(crate) fn new(alloc: Global, runs: usize) -> Lists
        ensures { HasLists result runs [] [] }
    {
        Lists {
            queue: MonotonicQueue::new(alloc),
            base: 16 * runs as u128,
        }
    }

    // Adds the run at an index of the set, with the least cost of the runs after it.
    pub(crate) fn add(&mut self, run: Span, at: usize, rest: u128) -> Result<(), AllocError>
        requires ordered { run.lo ≤ run.hi }
        requires below { at < usize.MAX }
        requires small { rest < 2 ^ 100 }
        requires lists { (runs : List Span)
            × ((rests : List ℕ) × HasLists self.old (at + 1) runs rests) }
        ensures { (runs : List Span) (rests : List ℕ) → HasLists self.old (at + 1) runs rests
            → OnOk result (HasLists self.new at (run ∷ runs) (rest ∷ rests)) }
    {
        // A list cannot have a run of more than two serials.
        let more = run.hi - run.lo;
        if more > 1 {
            self.queue.clear();
            return Ok(());
        }
        self.queue.forget_past(at as u128 + 1024);
        self.queue.push(Candidate {
            position: at as u64 + 1,
            value: self.base + rest,
            end: at + 1,
        })?;
        self.base -= 8 * (more as u128 + 1);
        Ok(())
    }

    // The best of a cell and of the lists that the run at an index begins.
    pub(crate) fn best(&self, at: usize, best: Cell) -> Cell
        requires lists { (runs : List Span)
            × ((rests : List ℕ) × HasLists self.now at runs rests) }
        ensures { (runs : List Span) (rests : List ℕ) → HasLists self.now at runs rests
            → IsCell rests runs best → IsBestOf rests runs Serials (IsList runs) best result }
    {
        let Some(candidate) = self.queue.least() else {
            return best
        };
        let group = Group {
            sort: Sort::Serials,
            count: (candidate.end - at) as u16,
        };
        let cost = 5 + (candidate.value - self.base);
        winner(best, Cell { cost, group })
    }
}
