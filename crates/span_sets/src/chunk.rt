//! An element of a page: a span, or the members in one window of 64 serials.
ghost use Rattle.std.specs.Prelude.{◌≡◌, ◌+◌, ◌-◌, ◌*◌, ◌^◌, ◌<◌, ◌≤◌, ◌∷◌, [], ℕ, ◌↔◌, ◌⊎◌};
ghost use Rattle.std.specs.Prelude.{IfSome, IsTrue, None, false};
ghost use Rattle.std.specs.Int.{bit_at};
ghost use Rattle.span_sets.specs.Blocks.{BitCovers};

use crate::block_bits::{first_bit, last_bit};
use crate::search::HasEnd;

/// A span if `a` is at most `b`, otherwise a block: the window `b / 2`, whose bits are those of
/// `a`, except that the highest is the lowest bit of `b`. So a chunk takes 16 bytes and no tag.
#[derive(Clone, Copy)]
pub struct Chunk {
    a: u64,
    b: u64,
    ghost block: { b < a → (b < 2 ^ 59) × (2 ^ 63 ≤ a) },
}

impl Chunk {
    ghost use Rattle.span_sets.specs.Chunk.{is_span, window_of, bits_of, members_in, lo_of, hi_of};
    ghost use Rattle.span_sets.specs.Positions.{Widened};
    ghost use Rattle.span_sets.specs.Members.{GoesOn, IsFirst};
    ghost use Rattle.span_sets.specs.Tight.{HasBits, IsTight};
    ghost use Rattle.span_sets.specs.Blocks.{singles};
    ghost use Rattle.serial_set.specs.Span.{Covers};

    /// The serials from `lo` to `hi`.
    pub fn span(lo: u64, hi: u64) -> Chunk
        requires { lo ≤ hi }
        ensures members { members_in result ≡ record { lo = lo; hi = hi } ∷ [] }
        ensures lo { lo_of result ≡ lo }
        ensures hi { hi_of result ≡ hi }
        ensures tight { IsTight result }
    {
        Chunk { a: lo, b: hi }
    }

    /// The serials of a window whose bits are set.
    pub fn block(window: u64, bits: u64) -> Chunk
        requires { window < 2 ^ 58 }
        ensures members { members_in result ≡ singles 64 (64 * window) bits }
        ensures lo { lo_of result ≡ 64 * window }
        ensures hi { hi_of result ≡ 64 * window + 63 }
        ensures block { is_span result ≡ false }
    {
        if bits < 1 << 63 {
            Chunk {
                a: bits + (1 << 63),
                b: 2 * window,
            }
        } else {
            Chunk {
                a: bits,
                b: 2 * window + 1,
            }
        }
    }

    /// Whether it is a span.
    pub fn is_span(self) -> bool
        ensures { result ≡ is_span self }
    {
        self.a <= self.b
    }

    /// The window of a block.
    pub fn window(self) -> u64
        ensures { result ≡ window_of self }
    {
        self.b / 2
    }

    /// The bits of a block.
    pub fn bits(self) -> u64
        requires { self.b < self.a }
        ensures { result ≡ bits_of self }
    {
        if self.b % 2 == 1 {
            self.a
        } else {
            self.a - (1 << 63)
        }
    }

    /// The start of its stretch of numbers.
    pub fn lo(self) -> u64
        ensures { result ≡ lo_of self }
    {
        if self.is_span() {
            self.a
        } else {
            64 * self.window()
        }
    }

    /// The end of its stretch of numbers.
    pub fn hi(self) -> u64
        ensures { result ≡ hi_of self }
    {
        if self.is_span() {
            self.b
        } else {
            64 * self.window() + 63
        }
    }

    /// Whether a serial is a member.
    pub fn has(self, serial: u64) -> bool
        ensures { IsTrue result ↔ Covers (members_in self) serial }
    {
        if self.is_span() {
            return self.a <= serial && serial <= self.b;
        }
        serial / 64 == self.window() && has_bit(self.bits(), serial % 64)
    }

    /// The block with more bits, if they belong to its window and do not fill it.
    pub fn widened(self, window: u64, bits: u64) -> Option<Chunk>
        ensures { IfSome result (λ is. Widened self window bits is) }
    {
        if self.is_span() || self.window() != window {
            return None;
        }
        self.with(bits)
    }

    /// The block with more bits of its window, unless they fill it.
    pub fn with(self, bits: u64) -> Option<Chunk>
        requires { self.b < self.a }
        ensures with { IfSome result (λ is. HasBits self bits is) }
        ensures full { result ≡ None → (s : ℕ) → lo_of self ≤ s → s ≤ hi_of self
            → (Covers (members_in self) s ⊎ BitCovers 64 (64 * window_of self) bits s) }
    {
        let bits = self.bits() | bits;
        if bits == u64::MAX {
            return None;
        }
        Some(Chunk::block(self.window(), bits))
    }

    /// The first member from a number on.
    pub fn first_from(self, number: u64) -> Option<u64>
        requires { number ≤ hi_of self }
        ensures { IsFirst (members_in self) number result }
    {
        if self.is_span() {
            return Some(number.max(self.a));
        }
        let first = self.lo();
        match first_bit(self.bits(), number.saturating_sub(first)) {
            Some(at) => Some(first + at),
            None => None,
        }
    }

    /// The last of the members that follow a member without a gap.
    pub fn last_from(self, member: u64) -> u64
        requires { Covers (members_in self) member }
        ensures on { GoesOn (members_in self) member result }
        ensures last { result < hi_of self → Covers (members_in self) (result + 1) → ⊥ }
    {
        if self.is_span() {
            return self.b;
        }
        let first = self.lo();
        first + last_bit(self.bits(), member - first)
    }

    /// The members in a window, as its bits.
    pub fn bits_in(self, window: u64) -> u64
        requires { window < 2 ^ 58 }
        ensures { (s : ℕ) → 64 * window ≤ s → s < 64 * window + 64
            → (BitCovers 64 (64 * window) result s ↔ Covers (members_in self) s) }
    {
        if self.is_span() {
            return span_in(window, self.a, self.b);
        }
        if self.window() == window {
            self.bits()
        } else {
            0
        }
    }
}

impl HasEnd for Chunk {
    ghost use Rattle.span_sets.specs.Chunk.{hi_of};

    ghost end = { hi_of };

    fn end(&self) -> u64 {
        self.hi()
    }
}

// Whether a bit is set.
fn has_bit(bits: u64, bit: u64) -> bool
    requires { bit < 64 }
    ensures { IsTrue result ↔ (bit_at bits bit ≡ 1) }
{
    bits >> bit & 1 == 1
}

/// The bits from `lo` to `hi`, both included and below 64.
pub fn mask(lo: u64, hi: u64) -> u64
    requires ordered { lo ≤ hi }
    requires within { hi < 64 }
    ensures { result ≡ 2 ^ (hi + 1) - 2 ^ lo }
{
    (u64::MAX >> (63 - hi)) - ((1 << lo) - 1)
}

// The part of a span that is in a window, as the window's bits.
fn span_in(window: u64, lo: u64, hi: u64) -> u64
    requires window { window < 2 ^ 58 }
    requires ordered { lo ≤ hi }
    ensures { (s : ℕ) → 64 * window ≤ s → s < 64 * window + 64
        → (BitCovers 64 (64 * window) result s ↔ ((lo ≤ s) × (s ≤ hi))) }
{
    let first = 64 * window;
    if hi < first || first + 63 < lo {
        return 0;
    }
    mask(lo.saturating_sub(first), (hi - first).min(63))
}

impl Default for Chunk {
    fn default() -> Chunk {
        Chunk::span(0, 0)
    }
}
