//! The runs of a set, in the order of an iteration.
ghost use Rattle.std.specs.Prelude.{◌≡◌, ◌+◌, ◌<◌, ◌≤◌, ◌↔◌, ℕ, [], length, take, slice_get, false};
ghost use Rattle.std.specs.Prelude.{Contains, IsTrue, IfErr, IfOk};
ghost use Rattle.span_sets.specs.Chunk.{hi_of, members_of, runs_of};
ghost use Rattle.span_sets.specs.Members.{GoesOn, IsFirst, Reads, Taken};
ghost use Rattle.serial_set.specs.Span.{Covers};
ghost use Rattle.span_sets.specs.SpanPages.{chunks_held};
ghost use Rattle.serial_set.specs.Iteration.{IsPiece, piece_of, since};

use crate::chunk::Chunk;
use crate::span_pages::SpanPages;
use serial_set::{Piece, Span};

impl SpanPages {
    // The first runs of the members from a number on: as many as a piece has room for, or as are
    // complete in one slice of chunks, and at least one if there are any.
    pub(crate) fn runs_from(&self, number: u64) -> Piece
        ensures { IsPiece (runs_of (chunks_held self.now)) number (piece_of result) }
    {
        let mut piece = Piece::none();
        self.take_whole(&mut piece, number);
        if piece.is_empty() {
            self.take_first(&mut piece, number);
        }
        piece
    }

    // Takes the runs that are complete in one slice, without one that continues past it.
    fn take_whole(&self, piece: &mut Piece, number: u64)
        requires { piece_of piece.old ≡ [] }
        ensures { piece_of piece.new ≡ take (length (piece_of piece.new))
            (since number (runs_of (chunks_held self.now))) }
    {
        self.take_list(piece, number);
        if let Some(last) = piece.pop() {
            if !self.has_after(last.hi) {
                piece.push(last);
            }
        }
    }

    // Takes the runs of the members from a number on, until the piece is full or the slice of
    // chunks ends. The last of them may continue there.
    fn take_list(&self, piece: &mut Piece, number: u64)
        requires { piece_of piece.old ≡ [] }
        ensures { (at : ℕ) × Taken (members_of (chunks_held self.now)) number at
            (piece_of piece.new) }
    {
        let chunks = self.list_from(number);
        for at in 0..chunks.len() {
            if !self.take_chunk(piece, chunks[at], number) {
                return;
            }
        }
    }

    // Takes the runs of a chunk's members from a number on, and returns whether it took them all.
    fn take_chunk(&self, piece: &mut Piece, chunk: Chunk, number: u64) -> bool
        requires { (at : ℕ) × (Taken (members_of (chunks_held self.now)) number at
            (piece_of piece.old) × Reads (members_of (chunks_held self.now)) at chunk number) }
        ensures { (at : ℕ) × (Taken (members_of (chunks_held self.now)) number at
            (piece_of piece.new) × (IsTrue result → at ≡ hi_of chunk + 1)) }
    {
        let mut from = number;
        while !piece.is_full() {
            let Some(lo) = chunk.first_from(from) else {
                return true;
            };
            let hi = chunk.last_from(lo);
            piece.join(lo, hi);
            if hi == chunk.hi() {
                return true;
            }
            from = hi + 1;
        }
        false
    }

    // Takes the first run of the members from a number on, wherever it ends.
    fn take_first(&self, piece: &mut Piece, number: u64)
        requires { piece_of piece.old ≡ [] }
        ensures { IsPiece (runs_of (chunks_held self.now)) number (piece_of piece.new) }
    {
        let Some(lo) = self.first_member(number) else {
            return;
        };
        let hi = self.run_end(lo);
        piece.push(Span { lo, hi });
    }

    // The first member from a number on, if the first chunk there has it, otherwise the number past
    // that chunk.
    fn first_or_next(&self, number: u64) -> Result<Option<u64>, u64>
        ensures first { IfOk result
            (λ first. IsFirst (members_of (chunks_held self.now)) number first) }
        ensures next { IfErr result (λ next. number < next) }
        ensures none { IfErr result (λ next. (s : ℕ) → number ≤ s → s < next
            → Covers (members_of (chunks_held self.now)) s → ⊥) }
    {
        let Some(chunk) = self.chunk_from(number) else {
            return Ok(None);
        };
        match chunk.first_from(number) {
            Some(first) => Ok(Some(first)),
            None => match chunk.hi().checked_add(1) {
                Some(next) => Err(next),
                None => Ok(None),
            },
        }
    }

    // The first member from a number on. No block is empty, but that is not known here.
    fn first_member(&self, number: u64) -> Option<u64>
        ensures { IsFirst (members_of (chunks_held self.now)) number result }
    {
        let mut at = number;
        loop {
            match self.first_or_next(at) {
                Ok(first) => return first,
                Err(next) => at = next,
            }
        }
    }

    // Whether some number from `lo` to `hi` is a member.
    pub(crate) fn has_some(&self, lo: u64, hi: u64) -> bool
        ensures some { IsTrue result → (s : ℕ) × ((lo ≤ s) × (s ≤ hi)
            × Covers (members_of (chunks_held self.now)) s) }
        ensures none { result ≡ false → (s : ℕ) → lo ≤ s → s ≤ hi
            → Covers (members_of (chunks_held self.now)) s → ⊥ }
    {
        match self.first_member(lo) {
            Some(first) => first <= hi,
            None => false,
        }
    }

    // The last of the members of one chunk that follow a member without a gap.
    fn last_in_chunk(&self, member: u64) -> u64
        requires { Covers (members_of (chunks_held self.now)) member }
        ensures on { GoesOn (members_of (chunks_held self.now)) member result }
        ensures last { Covers (members_of (chunks_held self.now)) (result + 1)
            → (e : Chunk) × (Contains (chunks_held self.now) e × (hi_of e ≡ result)) }
    {
        match self.chunk_from(member) {
            Some(chunk) => chunk.last_from(member),
            None => unreachable!(),
        }
    }

    // Where the run of a member ends.
    fn run_end(&self, member: u64) -> u64
        requires { Covers (members_of (chunks_held self.now)) member }
        ensures on { GoesOn (members_of (chunks_held self.now)) member result }
        ensures stops { Covers (members_of (chunks_held self.now)) (result + 1) → ⊥ }
    {
        let mut from = member;
        loop {
            let last = self.last_in_chunk(from);
            if !self.has_after(last) {
                return last;
            }
            from = last + 1;
        }
    }

    // Whether the number after a number is a member.
    fn has_after(&self, number: u64) -> bool
        ensures { IsTrue result ↔ Covers (members_of (chunks_held self.now)) (number + 1) }
    {
        if number == u64::MAX {
            return false;
        }
        self.has_number(number + 1)
    }

    // The number of runs of the members.
    pub(crate) fn count_runs(&self) -> usize
        ensures { result ≡ length (runs_of (chunks_held self.now)) }
    {
        let mut count = 0;
        let mut next = Some(0);
        while let Some(at) = next {
            let piece = self.runs_from(at);
            count += piece.as_slice().len();
            next = piece.next();
        }
        count
    }

    // The run at a position of the list of all runs.
    pub(crate) fn run_at(&self, at: usize) -> Span
        requires { at < length (runs_of (chunks_held self.now)) }
        ensures { slice_get (runs_of (chunks_held self.now)) at ≡ Some result }
    {
        let mut rest = at;
        let mut next = Some(0);
        while let Some(number) = next {
            let piece = self.runs_from(number);
            let runs = piece.as_slice();
            if rest < runs.len() {
                return runs[rest];
            }
            rest -= runs.len();
            next = piece.next();
        }
        unreachable!()
    }
}
