//! The chunks by which an addition replaces those that it meets.
ghost use Rattle.std.specs.Prelude.{◌≡◌, ◌+◌, ◌*◌, ◌/◌, ◌%◌, ◌^◌, ◌<◌, ◌≤◌, ◌⊎◌, ◌↔◌, ◌∷◌, ◌++◌};
ghost use Rattle.std.specs.Prelude.{[], ℕ, IfSome, All, length, true, false};
ghost use Rattle.std.specs.Option.{option_to_list};
ghost use Rattle.span_sets.specs.Chunk.{is_span, lo_of, hi_of, members_of, members_in};
ghost use Rattle.span_sets.specs.Few.{few_of};
ghost use Rattle.span_sets.specs.Replacement.{lo_or, hi_or, Has, IsReplacement};
ghost use Rattle.serial_set.specs.Span.{Covers};
ghost use Rattle.span_sets.specs.Tight.{IsTight};
ghost use Rattle.span_sets.specs.Blocks.{BitCovers};

use crate::chunk::Chunk;
use crate::few::{Few, few_chunks};

/// Chunks that rise within the numbers from `lo` to `hi`.
#[derive(Drop)]
pub struct Replacement {
    pub few: Few,
    pub lo: u64,
    pub hi: u64,
}

/// One end of an added span: a block, if the span ends in a window that has one and does not fill
/// it, and the number to which the rest of the span reaches on this side.
#[derive(Clone, Copy)]
pub struct Side {
    pub block: Option<Chunk>,
    pub at: u64,
}

/// The chunks that replace those that a span with these ends meets.
pub fn replacement_of_span(lower: Side, upper: Side) -> Replacement
    requires lower { IfSome lower.block
        (λ w. (hi_of w + 1 ≡ lower.at) × (is_span w ≡ false) × IsTight w) }
    requires upper { IfSome upper.block
        (λ w. (upper.at + 1 ≡ lo_of w) × (is_span w ≡ false) × IsTight w) }
    requires order { lower.at ≤ upper.at + 1 }
    requires between { lo_or lower.block lower.at ≤ hi_or upper.block upper.at }
    ensures lies { IsReplacement (few_of result.few) result.lo result.hi }
    ensures lo { result.lo ≡ lo_or lower.block lower.at }
    ensures hi { result.hi ≡ hi_or upper.block upper.at }
    ensures members { (s : ℕ) → Covers (members_of (few_of result.few)) s
        ↔ (Has lower.block s ⊎ (((lower.at ≤ s) × (s ≤ upper.at)) ⊎ Has upper.block s)) }
    ensures tight { All IsTight (few_of result.few) }
    ensures spans { All (λ e. is_span e ≡ true → (lo_of e ≡ lower.at) × (hi_of e ≡ upper.at))
        (few_of result.few) }
{
    let span = span_between(lower.at, upper.at);
    Replacement {
        few: few_chunks(lower.block, span, upper.block),
        lo: lo_or(lower.block, lower.at),
        hi: hi_or(upper.block, upper.at),
    }
}

/// The chunks that replace those that a window meets, if the window has exactly these bits, which
/// are some and not all. `head` is the chunk whose stretch contains the window's first number, and
/// `tail` the one whose stretch contains its last.
pub fn replacement_of_bits(
    window: u64,
    bits: u64,
    head: Option<Chunk>,
    tail: Option<Chunk>,
) -> Replacement
    requires window { window < 2 ^ 58 }
    requires some { 0 < bits }
    requires gap { bits + 1 < 2 ^ 64 }
    requires head { IfSome head (λ e. (lo_of e ≤ 64 * window) × (64 * window ≤ hi_of e)) }
    requires tail { IfSome tail
        (λ e. (lo_of e ≤ 64 * window + 63) × (64 * window + 63 ≤ hi_of e)) }
    ensures lies { IsReplacement (few_of result.few) result.lo result.hi }
    ensures lo { result.lo ≡ lo_or head (64 * window) }
    ensures hi { result.hi ≡ hi_or tail (64 * window + 63) }
    ensures members { (s : ℕ) → Covers (members_of (few_of result.few)) s
        ↔ ((Has head s × (s < 64 * window)) ⊎ (BitCovers 64 (64 * window) bits s
        ⊎ (Has tail s × (64 * window + 63 < s)))) }
    ensures tight { All IsTight (few_of result.few) }
    ensures spans { All (λ e. is_span e ≡ true
        → ((lo_of e ≡ lo_or head (64 * window)) × (hi_of e < 64 * window))
        ⊎ ((64 * window + 63 < lo_of e) × (hi_of e ≡ hi_or tail (64 * window + 63))))
        (few_of result.few) }
{
    let first = 64 * window;
    let block = Chunk::block(window, bits);
    Replacement {
        few: few_chunks(before(head, first), Some(block), after(tail, first + 63)),
        lo: lo_or(head, first),
        hi: hi_or(tail, first + 63),
    }
}

// The span from `lo` to `hi`, unless it is empty.
fn span_between(lo: u64, hi: u64) -> Option<Chunk>
    ensures some { lo ≤ hi → 0 < length (option_to_list result) }
    ensures ends { IfSome result (λ e. (lo_of e ≡ lo) × (hi_of e ≡ hi) × IsTight e) }
    ensures members { (s : ℕ) → Has result s ↔ ((lo ≤ s) × (s ≤ hi)) }
{
    if lo <= hi {
        Some(Chunk::span(lo, hi))
    } else {
        None
    }
}

// The part of a span before a number in the stretch of its chunk.
fn before(head: Option<Chunk>, first: u64) -> Option<Chunk>
    requires window { first / 64 * 64 ≡ first }
    requires head { IfSome head (λ e. (lo_of e ≤ first) × (first ≤ hi_of e)) }
    ensures ends { IfSome result (λ e. (lo_of e ≡ lo_or head first) × (hi_of e < first)) }
    ensures tight { IfSome result IsTight }
    ensures members { (s : ℕ) → Has result s ↔ (Has head s × (s < first)) }
{
    match head {
        Some(chunk) if chunk.lo() < first => Some(Chunk::span(chunk.lo(), first - 1)),
        _ => None,
    }
}

// The part of a span after a number in the stretch of its chunk.
fn after(tail: Option<Chunk>, last: u64) -> Option<Chunk>
    requires window { last % 64 ≡ 63 }
    requires tail { IfSome tail (λ e. (lo_of e ≤ last) × (last ≤ hi_of e)) }
    ensures ends { IfSome result (λ e. (last < lo_of e) × (hi_of e ≡ hi_or tail last)) }
    ensures tight { IfSome result IsTight }
    ensures members { (s : ℕ) → Has result s ↔ (Has tail s × (last < s)) }
{
    match tail {
        Some(chunk) if last < chunk.hi() => Some(Chunk::span(last + 1, chunk.hi())),
        _ => None,
    }
}

// Where a chunk begins, or a number if there is none.
fn lo_or(chunk: Option<Chunk>, number: u64) -> u64
    ensures { result ≡ lo_or chunk number }
{
    match chunk {
        Some(chunk) => chunk.lo(),
        None => number,
    }
}

// Where a chunk ends, or a number if there is none.
fn hi_or(chunk: Option<Chunk>, number: u64) -> u64
    ensures { result ≡ hi_or chunk number }
{
    match chunk {
        Some(chunk) => chunk.hi(),
        None => number,
    }
}
