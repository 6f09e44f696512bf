//! Where an added span begins and ends among the chunks of a set.
ghost use Rattle.std.specs.Prelude.{◌≡◌, ◌+◌, ◌-◌, ◌*◌, ◌/◌, ◌^◌, ◌<◌, ◌≤◌, ◌⊎◌, None, Some};
ghost use Rattle.std.specs.Prelude.{IfSome, false, min};
ghost use Rattle.span_sets.specs.Chunk.{is_span, lo_of, hi_of};
ghost use Rattle.span_sets.specs.Positions.{IsChunkFrom};
ghost use Rattle.span_sets.specs.Sides.{IsUpperSide, IsLowerSide};
ghost use Rattle.span_sets.specs.SpanPages.{chunks_held};

use crate::chunk::{Chunk, mask};
use crate::replacement::Side;
use crate::span_pages::SpanPages;

impl SpanPages {
    // The lower side of a span from `lo` on. `met` is the first chunk that ends directly before
    // `lo` or past that.
    pub(crate) fn lower_side(&self, met: Option<Chunk>, lo: u64) -> Side
        requires fits { 64 * ((lo + 63) / 64) < 2 ^ 64 }
        requires met { IsChunkFrom (chunks_held self.now) (lo - 1) met }
        ensures { IsLowerSide (chunks_held self.now) lo result.block result.at }
    {
        match met {
            Some(block) if !block.is_span() && block.lo() < lo && lo <= block.hi() => {
                self.lower_side_in(block, lo)
            }
            _ => Side {
                block: None,
                at: self.begin_of(met, lo),
            },
        }
    }

    // The lower side where a block reaches over `lo`. A block that gets full becomes part of the
    // span.
    fn lower_side_in(&self, block: Chunk, lo: u64) -> Side
        requires fits { 64 * ((lo + 63) / 64) < 2 ^ 64 }
        requires met { IsChunkFrom (chunks_held self.now) (lo - 1) (Some block) }
        requires block { is_span block ≡ false }
        requires over { (lo_of block < lo) × (lo ≤ hi_of block) }
        ensures { IsLowerSide (chunks_held self.now) lo result.block result.at }
    {
        match block.with(mask(lo % 64, 63)) {
            Some(more) => Side {
                block: Some(more),
                at: block.hi() + 1,
            },
            None => {
                let first = block.lo();
                let met = self.chunk_from(first.saturating_sub(1));
                Side {
                    block: None,
                    at: self.begin_of(met, first),
                }
            }
        }
    }

    // Where a span from `lo` on begins, if no block reaches over `lo`: at the beginning of `met` if
    // that is a span that begins before `lo`, otherwise at `lo`.
    fn begin_of(&self, met: Option<Chunk>, lo: u64) -> u64
        requires met { IsChunkFrom (chunks_held self.now) (lo - 1) met }
        requires whole { IfSome met
            (λ e. is_span e ≡ false → (hi_of e < lo) ⊎ (lo ≤ lo_of e)) }
        ensures { IsLowerSide (chunks_held self.now) lo None result }
    {
        match met {
            Some(span) if span.is_span() && span.lo() < lo => span.lo(),
            _ => lo,
        }
    }

    // The upper side of a span up to `hi`. `met` is the first chunk that ends directly after `hi`
    // or past that.
    pub(crate) fn upper_side(&self, met: Option<Chunk>, hi: u64) -> Side
        requires past { 63 ≤ hi }
        requires met { IsChunkFrom (chunks_held self.now) (min (hi + 1) (2 ^ 64 - 1)) met }
        ensures { IsUpperSide (chunks_held self.now) hi result.block result.at }
    {
        match met {
            Some(block) if !block.is_span() && block.lo() <= hi && hi < block.hi() => {
                self.upper_side_in(block, hi)
            }
            _ => Side {
                block: None,
                at: self.end_of(met, hi),
            },
        }
    }

    // The upper side where a block reaches over `hi`.
    fn upper_side_in(&self, block: Chunk, hi: u64) -> Side
        requires past { 63 ≤ hi }
        requires met { IsChunkFrom (chunks_held self.now) (min (hi + 1) (2 ^ 64 - 1))
            (Some block) }
        requires block { is_span block ≡ false }
        requires over { (lo_of block ≤ hi) × (hi < hi_of block) }
        ensures { IsUpperSide (chunks_held self.now) hi result.block result.at }
    {
        match block.with(mask(0, hi % 64)) {
            Some(more) => Side {
                block: Some(more),
                at: block.lo() - 1,
            },
            None => {
                let last = block.hi();
                let met = self.chunk_from(last.saturating_add(1));
                Side {
                    block: None,
                    at: self.end_of(met, last),
                }
            }
        }
    }

    // Where a span up to `hi` ends, if no block reaches over `hi`.
    fn end_of(&self, met: Option<Chunk>, hi: u64) -> u64
        requires met { IsChunkFrom (chunks_held self.now) (min (hi + 1) (2 ^ 64 - 1)) met }
        requires whole { IfSome met
            (λ e. is_span e ≡ false → (hi_of e ≤ hi) ⊎ (hi < lo_of e)) }
        ensures { IsUpperSide (chunks_held self.now) hi None result }
    {
        match met {
            Some(span) if span.is_span() && span.lo() <= hi.saturating_add(1) => span.hi(),
            _ => hi,
        }
    }
}
