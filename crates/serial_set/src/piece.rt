//! Some consecutive runs of a set.
ghost use Rattle.std.specs.Prelude.{◌≡◌, ◌≤◌, ◌<◌, ◌+◌, ◌++◌, ◌↔◌, ℕ, [], ◌∷◌, length, take, All};
ghost use Rattle.std.specs.Prelude.{MatchOption, IsTrue, false};

use crate::iteration::next_after;
use crate::span::Span;

/// Some consecutive runs of a set: the first `count` of `spans`.
#[derive(Clone, Copy)]
pub struct Piece {
    spans: [Span; 32],
    count: u8,
    ghost within: { count ≤ 32 },
}

impl Piece {
    ghost use Rattle.serial_set.specs.Span.{AddsSpan, Covers, IsRuns};
    ghost use Rattle.serial_set.specs.Iteration.{clipped, next_of, piece_of, since};

    /// No runs.
    pub fn none() -> Piece
        ensures { piece_of result ≡ [] }
    {
        Piece {
            spans: [Span { lo: 0, hi: 0 }; 32],
            count: 0,
        }
    }

    /// Appends a run.
    pub fn push(&mut self, span: Span)
        requires { length (piece_of self.old) < 32 }
        ensures { piece_of self.new ≡ piece_of self.old ++ span ∷ [] }
    {
        self.spans[usize::from(self.count)] = span;
        self.count += 1;
    }

    /// Whether there is no room for another run.
    pub fn is_full(&self) -> bool
        ensures { IsTrue result ↔ (32 ≤ length (piece_of self.now)) }
    {
        self.count >= 32
    }

    /// Whether there is no run.
    pub fn is_empty(&self) -> bool
        ensures none { IsTrue result → piece_of self.now ≡ [] }
        ensures some { result ≡ false → 0 < length (piece_of self.now) }
    {
        self.count == 0
    }

    /// Removes the last run.
    pub fn pop(&mut self) -> Option<Span>
        ensures { MatchOption result
            ((piece_of self.old ≡ []) × (piece_of self.new ≡ []))
            (λ last. piece_of self.old ≡ piece_of self.new ++ last ∷ []) }
    {
        if self.count == 0 {
            return None;
        }
        self.count -= 1;
        Some(self.spans[usize::from(self.count)])
    }

    /// Appends a span. If it touches the last run, it extends that run.
    pub fn join(&mut self, lo: u64, hi: u64)
        requires room { length (piece_of self.old) < 32 }
        requires ordered { lo ≤ hi }
        requires runs { IsRuns (piece_of self.old) }
        requires past { (s : ℕ) → Covers (piece_of self.old) s → s < lo }
        ensures { AddsSpan (piece_of self.old) lo hi (piece_of self.new) }
    {
        let Some(last) = self.pop() else {
            self.push(Span { lo, hi });
            return;
        };
        if last.hi + 1 == lo {
            self.push(Span { lo: last.lo, hi });
            return;
        }
        self.push(last);
        self.push(Span { lo, hi });
    }

    // The first of some runs.
    fn of(runs: &[Span]) -> Piece
        ensures { piece_of result ≡ take 32 runs.now }
    {
        let mut piece = Piece::none();
        for at in 0..runs.len().min(32) {
            piece.push(runs[at]);
        }
        piece
    }

    // Makes the first run begin at a number, if it begins before it.
    fn clip(&mut self, number: u64)
        ensures { piece_of self.new ≡ clipped number (piece_of self.old) }
    {
        if self.count > 0 {
            let Span { lo, hi } = self.spans[0];
            let lo = number.max(lo);
            self.spans[0] = Span { lo, hi };
        }
    }

    /// The first runs from a number on. Each of `runs` ends at the number or past it.
    pub fn from(runs: &[Span], number: u64) -> Piece
        requires { All (λ t. number ≤ t.hi) runs.now }
        ensures { piece_of result ≡ take 32 (since number runs.now) }
    {
        let mut piece = Piece::of(runs);
        piece.clip(number);
        piece
    }

    /// The runs, in order.
    pub fn as_slice(&self) -> &[Span]
        ensures runs { result.now ≡ piece_of self.now }
        ensures few { length result.now ≤ 32 }
    {
        &self.spans[..usize::from(self.count)]
    }

    /// Where an iteration continues after these runs, as `next_after` says.
    pub fn next(&self) -> Option<u64>
        ensures { result ≡ next_of (piece_of self.now) }
    {
        next_after(self.as_slice())
    }
}
