//! Some runs of a set that follow one another, in a search that moves forward.

ghost use Rattle.std.specs.Prelude.{◌≡◌, ◌≤◌, ℕ, IfSome, List, drop, slice_get};
ghost use Rattle.serial_set.specs.declared.span.Span.{Span};
ghost use Rattle.list_diff.specs.Ahead.{Follows, IsFirst, IsWindow};

use serial_set::{Piece, Span};

/// Some runs of a set: those of a piece from an index on. They are the first ones from a number on.
#[derive(Drop)]
pub(crate) struct Window {
    pub(crate) from: u64,
    pub(crate) piece: Piece,
    pub(crate) at: usize,
}

impl Window {
    /// Moves to a number and returns the first run from there on. `None` says only that this window
    /// does not have it.
    pub(crate) fn first_from(&mut self, number: u64) -> Option<Span>
        ensures stays { (spans : List Span) → IsWindow spans self.old → IsWindow spans self.new }
        ensures first { (spans : List Span) → IsWindow spans self.old
            → IfSome result (IsFirst spans number) }
    {
        if number < self.from {
            return None;
        }
        self.at = count_ending_before(self.piece.as_slice(), self.at, number);
        self.from = number;
        let first = run_at(self.piece.as_slice(), self.at)?;
        let lo = first.lo.max(number);
        Some(Span { lo, hi: first.hi })
    }
}

// The index of the first run from an index on that ends at a number or past it.
fn count_ending_before(runs: &[Span], begin: usize, number: u64) -> usize
    ensures follows { (spans : List Span) (n : ℕ) → n ≤ number
        → Follows spans n (drop begin runs.now) → Follows spans number (drop result runs.now) }
    ensures ends { IfSome (slice_get runs.now result) (λ run. number ≤ run.hi) }
{
    let mut at = begin;
    while at < runs.len() {
        if number <= runs[at].hi {
            return at;
        }
        at += 1;
    }
    at
}

/// The run at an index, if there is one.
pub(crate) fn run_at(runs: &[Span], at: usize) -> Option<Span>
    ensures { result ≡ slice_get runs.now at }
{
    if at < runs.len() {
        Some(runs[at])
    } else {
        None
    }
}
