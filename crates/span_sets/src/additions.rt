//! Additions to a set of chunks.
ghost use Rattle.std.specs.Prelude.{◌≡◌, ◌+◌, ◌*◌, ◌/◌, ◌%◌, ◌^◌, ◌<◌, ◌≤◌, ◌⊎◌, ◌↔◌, ℕ, false};
ghost use Rattle.std.specs.Prelude.{All, IsTrue, IfSome, MatchOption, OnOk, OnErr};
ghost use Rattle.span_sets.specs.Additions.{IsAt};
ghost use Rattle.serial_set.specs.BitRuns.{IsInterval};
ghost use Rattle.span_sets.specs.Chunk.{is_span, lo_of, hi_of, members_of, runs_of};
ghost use Rattle.serial_set.specs.Near.{AddsSpans, AreNear};
ghost use Rattle.span_sets.specs.Replacement.{lo_or, hi_or, Has};
ghost use Rattle.span_sets.specs.Positions.{IsChunkFrom};
ghost use Rattle.serial_set.specs.Span.{AddsSpan, Covers, IsRunsOf};
ghost use Rattle.span_sets.specs.SpanPages.{chunks_held};
ghost use Rattle.span_sets.specs.Blocks.{BitCovers};

use crate::block_bits::bits_of;
use crate::chunk::{Chunk, mask};
use crate::replacement::{replacement_of_bits, replacement_of_span};
use crate::span_pages::SpanPages;
use serial_set::Span;
use std::alloc::AllocError;

// The bits of a chunk in a window, and the position in the window after it.
#[derive(Clone, Copy)]
struct WindowBits {
    bits: u64,
    at: u64,
}

impl SpanPages {
    // Adds the numbers from `lo` to `hi`.
    pub(crate) fn add_numbers(&mut self, lo: u64, hi: u64) -> Result<(), AllocError>
        requires from_one { 0 < lo }
        requires ordered { lo ≤ hi }
        ensures runs { OnOk result (AddsSpan (runs_of (chunks_held self.old)) lo hi
            (runs_of (chunks_held self.new))) }
        ensures refused { OnErr result (chunks_held self.new ≡ chunks_held self.old) }
    {
        if lo / 64 == hi / 64 {
            return self.add_bits(lo / 64, mask(lo % 64, hi % 64));
        }
        self.add_wide(lo, hi)
    }

    // Adds the numbers of spans that lie near each other.
    pub(crate) fn add_spans(&mut self, near: &[Span]) -> Result<(), AllocError>
        requires intervals { All IsInterval near.now }
        requires near { AreNear near.now }
        ensures runs { OnOk result (AddsSpans (runs_of (chunks_held self.old)) near.now
            (runs_of (chunks_held self.new))) }
        ensures refused { OnErr result (chunks_held self.new ≡ chunks_held self.old) }
    {
        match near {
            [] => Ok(()),
            [span] => self.add_numbers(span.lo, span.hi),
            [first, ..] => {
                let window = first.lo / 64;
                self.add_bits(window, bits_of(near, window))
            }
        }
    }

    // Adds the numbers of a window whose bits are set.
    fn add_bits(&mut self, window: u64, bits: u64) -> Result<(), AllocError>
        requires window { window < 2 ^ 58 }
        requires some { 0 < bits }
        requires serials { (s : ℕ) → BitCovers 64 (64 * window) bits s → 0 < s }
        ensures runs { OnOk result (IsRunsOf (runs_of (chunks_held self.new))
            (λ s. Covers (runs_of (chunks_held self.old)) s
            ⊎ BitCovers 64 (64 * window) bits s)) }
        ensures refused { OnErr result (chunks_held self.new ≡ chunks_held self.old) }
    {
        if self.set_bits(window, bits) {
            return Ok(());
        }
        self.join_bits(window, bits)
    }

    // Adds the bits of a window that has no block, or whose block gets full.
    fn join_bits(&mut self, window: u64, bits: u64) -> Result<(), AllocError>
        requires window { window < 2 ^ 58 }
        requires some { 0 < bits }
        requires serials { (s : ℕ) → BitCovers 64 (64 * window) bits s → 0 < s }
        ensures runs { OnOk result (IsRunsOf (runs_of (chunks_held self.new))
            (λ s. Covers (runs_of (chunks_held self.old)) s
            ⊎ BitCovers 64 (64 * window) bits s)) }
        ensures refused { OnErr result (chunks_held self.new ≡ chunks_held self.old) }
    {
        let first = 64 * window;
        let met = self.chunk_from(first);
        if holds(met, first, first + 63) {
            return Ok(());
        }
        let bits = bits | self.bits_from(met, window);
        if bits == u64::MAX {
            return self.add_wide(first, first + 63);
        }
        let head = self.at(met, first);
        let tail = self.at(self.chunk_on(met, first + 63), first + 63);
        let replacement = replacement_of_bits(window, bits, head, tail);
        self.put(&replacement.few, replacement.lo, replacement.hi)
    }

    // Adds the numbers from `lo` to `hi`, which fill a window or lie in several.
    fn add_wide(&mut self, lo: u64, hi: u64) -> Result<(), AllocError>
        requires from_one { 0 < lo }
        requires ordered { lo ≤ hi }
        requires windows { (lo / 64 < hi / 64) ⊎ ((lo % 64 ≡ 0) × (hi % 64 ≡ 63)) }
        ensures runs { OnOk result (AddsSpan (runs_of (chunks_held self.old)) lo hi
            (runs_of (chunks_held self.new))) }
        ensures refused { OnErr result (chunks_held self.new ≡ chunks_held self.old) }
    {
        let met = self.chunk_from(lo - 1);
        if holds(met, lo, hi) {
            return Ok(());
        }
        let next = hi.saturating_add(1);
        let lower = self.lower_side(met, lo);
        let upper = self.upper_side(self.chunk_on(met, next), hi);
        let replacement = replacement_of_span(lower, upper);
        self.put(&replacement.few, replacement.lo, replacement.hi)
    }

    // The chunk whose stretch contains a number. `met` is the first that ends at the number or past
    // it.
    fn at(&self, met: Option<Chunk>, number: u64) -> Option<Chunk>
        requires { IsChunkFrom (chunks_held self.now) number met }
        ensures { IsAt (chunks_held self.now) number result }
    {
        match met {
            Some(chunk) if chunk.lo() <= number => Some(chunk),
            _ => None,
        }
    }

    // The first chunk that ends at a number or past it. `met` is that of a lower number, and
    // usually of this one too.
    fn chunk_on(&self, met: Option<Chunk>, number: u64) -> Option<Chunk>
        requires { (lower : ℕ) × ((lower ≤ number)
            × IsChunkFrom (chunks_held self.now) lower met) }
        ensures { IsChunkFrom (chunks_held self.now) number result }
    {
        match met {
            Some(chunk) if chunk.hi() < number => self.chunk_from(number),
            _ => met,
        }
    }

    // The members in a window, as its bits. `met` is the first chunk that ends in it or past it.
    fn bits_from(&self, met: Option<Chunk>, window: u64) -> u64
        requires window { window < 2 ^ 58 }
        requires met { IsChunkFrom (chunks_held self.now) (64 * window) met }
        ensures { (s : ℕ) → 64 * window ≤ s → s < 64 * window + 64
            → BitCovers 64 (64 * window) result s
            ↔ Covers (members_of (chunks_held self.now)) s }
    {
        let mut found = part_in(met, window, 0);
        while found.at < 64 {
            let part = part_in(self.chunk_from(64 * window + found.at), window, found.at);
            found = WindowBits {
                bits: found.bits | part.bits,
                at: part.at,
            };
        }
        found.bits
    }
}

// Whether a chunk is a span that covers all numbers from one to another.
fn holds(chunk: Option<Chunk>, lo: u64, hi: u64) -> bool
    ensures all { IsTrue result → (s : ℕ) → lo ≤ s → s ≤ hi → Has chunk s }
    ensures whole { MatchOption chunk ⊥ (λ e. IsTrue (is_span e) × (lo_of e ≤ lo) × (hi ≤ hi_of e))
        → IsTrue result }
{
    match chunk {
        Some(chunk) => chunk.is_span() && chunk.lo() <= lo && hi <= chunk.hi(),
        None => false,
    }
}

// The members of a chunk in a window, from a position of the window on.
fn part_in(chunk: Option<Chunk>, window: u64, at: u64) -> WindowBits
    requires window { window < 2 ^ 58 }
    requires at { at < 64 }
    requires reach { IfSome chunk (λ e. 64 * window + at ≤ hi_of e) }
    ensures bits { (s : ℕ) → 64 * window ≤ s → s < 64 * window + 64
        → BitCovers 64 (64 * window) result.bits s ↔ Has chunk s }
    ensures at { (at < result.at) × (result.at ≤ 64) }
    ensures end { (s : ℕ) → s < 64 * window + result.at
        → s ≤ hi_or chunk (64 * window + 63) }
{
    match chunk {
        Some(chunk) => WindowBits {
            bits: chunk.bits_in(window),
            at: (chunk.hi() - 64 * window).min(63) + 1,
        },
        None => WindowBits { bits: 0, at: 64 },
    }
}
