//! A set of serials as pages of spans and blocks of bits.
ghost use Rattle.std.specs.Prelude.{◌≡◌, ◌*◌, ◌^◌, ◌<◌, ◌≤◌, ◌⊎◌, ◌↔◌, ℕ, [], length, false, All};
ghost use Rattle.std.specs.Prelude.{IsTrue, IfOk, OnOk, OnErr};
ghost use Rattle.span_sets.specs.Chunk.{lo_of, hi_of, ChunksFrom, members_of, runs_of};
ghost use Rattle.span_sets.specs.Chunks.{Replaces};
ghost use Rattle.span_sets.specs.Few.{few_of};
ghost use Rattle.span_sets.specs.Storage.{chunks_stored};
ghost use Rattle.span_sets.specs.Lawful.{runs_of_chunks, serials_of_runs};
ghost use Rattle.span_sets.specs.OneWay.{order_prop};
ghost use Rattle.span_sets.specs.Positions.{IsChunkFrom, IsListFrom};
ghost use Rattle.serial_set.specs.Span.{AreSerials, Covers, IsRunsOf};
ghost use Rattle.span_sets.specs.Tight.{AreTight, KeepsTight};
ghost use Rattle.span_sets.specs.Blocks.{BitCovers};

use crate::chunk::Chunk;
use crate::few::Few;
use crate::storage::Storage;
use serial_set::{Piece, Span, Spans};
use std::alloc::{AllocError, Global};

/// The members as spans and as blocks of 64 serials: one of them in the set itself, or more in
/// pages of at most 256. An addition moves the chunks of one page, whatever the order of the
/// additions, and a page that is filled in order stays full.
#[derive(Drop)]
pub struct SpanPages {
    alloc: Global,
    storage: Storage,
    ghost order: { ChunksFrom 0 (chunks_stored storage) } by { order_prop 0 _ },
    ghost serials: { AreSerials (members_of (chunks_stored storage)) },
    ghost tight: { AreTight (chunks_stored storage) },
}

// A list may have millions of sets.
const _: () = prove!(size_of::<SpanPages>() <= 40);

impl SpanPages {
    ghost use Rattle.span_sets.specs.SpanPages.{chunks_held};

    // A set with no member. Does not allocate.
    pub(crate) fn none(alloc: Global) -> SpanPages
        ensures { chunks_held result ≡ [] }
    {
        SpanPages {
            alloc,
            storage: Storage::Only(None),
        }
    }

    // The consecutive chunks in one slice from the first that ends at a number or past it on.
    pub(crate) fn list_from(&self, number: u64) -> &[Chunk]
        ensures { IsListFrom (chunks_held self.now) number result.now }
    {
        self.storage.list_from(number)
    }

    // The first chunk that ends at a number or past it.
    pub(crate) fn chunk_from(&self, number: u64) -> Option<Chunk>
        ensures { IsChunkFrom (chunks_held self.now) number result }
    {
        let list = self.list_from(number);
        if list.len() > 0 { Some(list[0]) } else { None }
    }

    // Whether a number is a member.
    pub(crate) fn has_number(&self, number: u64) -> bool
        ensures { IsTrue result ↔ Covers (members_of (chunks_held self.now)) number }
    {
        match self.chunk_from(number) {
            Some(chunk) => chunk.has(number),
            None => false,
        }
    }

    // Replaces all chunks that reach into the numbers from `lo` to `hi` with at most three chunks.
    // If an allocation fails, nothing changes.
    pub(crate) fn put(&mut self, few: &Few, lo: u64, hi: u64) -> Result<(), AllocError>
        requires some { 0 < length (few_of few.now) }
        requires order { (lo ≤ hi) × ChunksFrom lo (few_of few.now) }
        requires ends { All (λ e. hi_of e ≤ hi) (few_of few.now) }
        requires serials { AreSerials (members_of (few_of few.now)) }
        requires whole { All (λ e. (hi_of e ≤ hi) ⊎ (hi < lo_of e)) (chunks_held self.old) }
        requires tight { KeepsTight (chunks_held self.old) lo hi (few_of few.now) }
        ensures put { OnOk result
            (Replaces (chunks_held self.old) lo hi (few_of few.now) (chunks_held self.new)) }
        ensures refused { OnErr result (chunks_held self.new ≡ chunks_held self.old) }
    {
        self.storage.put(self.alloc, few.as_slice(), lo, hi)
    }

    // Sets bits in the block of their window, if there is one that they do not fill. Otherwise
    // nothing changes.
    pub(crate) fn set_bits(&mut self, window: u64, bits: u64) -> bool
        requires window { window < 2 ^ 58 }
        requires serials { (s : ℕ) → BitCovers 64 (64 * window) bits s → 0 < s }
        ensures runs { IsTrue result → IsRunsOf (runs_of (chunks_held self.new))
            (λ s. Covers (runs_of (chunks_held self.old)) s
            ⊎ BitCovers 64 (64 * window) bits s) }
        ensures same { result ≡ false → chunks_held self.new ≡ chunks_held self.old }
    {
        self.storage.set_bits(window, bits)
    }
}

impl Spans for SpanPages {
    ghost use Rattle.span_sets.specs.SpanPages.{chunks_held};

    ghost spans = { λ set. runs_of (chunks_held set) };

    ghost law = { λ set. (
      (runs_of_chunks (chunks_held set) set.order).0,
      serials_of_runs (chunks_held set) set.order set.serials,
    ) };

    fn empty(alloc: Global) -> Result<SpanPages, AllocError> {
        Ok(SpanPages::none(alloc))
    }

    fn add(&mut self, lo: u64, hi: u64) -> Result<(), AllocError> {
        self.add_numbers(lo, hi)
    }

    fn add_near(&mut self, near: &[Span]) -> Result<(), AllocError> {
        self.add_spans(near)
    }

    fn has(&self, serial: u64) -> bool {
        self.has_number(serial)
    }

    fn meets(&self, lo: u64, hi: u64) -> bool {
        self.has_some(lo, hi)
    }

    fn len(&self) -> usize {
        self.count_runs()
    }

    fn get(&self, at: usize) -> Span {
        self.run_at(at)
    }

    fn piece_from(&self, number: u64) -> Piece {
        self.runs_from(number)
    }
}
