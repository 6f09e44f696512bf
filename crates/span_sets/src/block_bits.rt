//! The bits of a block.
ghost use Rattle.std.specs.Prelude.{◌≡◌, ◌+◌, ◌*◌, ◌<◌, ◌≤◌, ◌↔◌, ℕ, All};
ghost use Rattle.std.specs.Int.{bit_at};
ghost use Rattle.span_sets.specs.Members.{IsFirstBit};
ghost use Rattle.serial_set.specs.BitRuns.{IsInterval};
ghost use Rattle.serial_set.specs.Near.{LiesIn};
ghost use Rattle.serial_set.specs.Span.{Covers};
ghost use Rattle.span_sets.specs.Blocks.{BitCovers};

use crate::chunk::mask;
use serial_set::Span;

/// The first bit that is set, from `bit` on.
pub fn first_bit(bits: u64, bit: u64) -> Option<u64>
    requires { bit < 64 }
    ensures { IsFirstBit bits bit result }
{
    let rest = bits & mask(bit, 63);
    if rest == 0 {
        return None;
    }
    Some(u64::from(rest.trailing_zeros()))
}

/// The last of the consecutive set bits from `bit` on.
pub fn last_bit(bits: u64, bit: u64) -> u64
    requires within { bit < 64 }
    requires set { bit_at bits bit ≡ 1 }
    ensures order { bit ≤ result }
    ensures within { result < 64 }
    ensures all { (i : ℕ) → bit ≤ i → i ≤ result → bit_at bits i ≡ 1 }
    ensures last { result < 63 → bit_at bits (result + 1) ≡ 0 }
{
    match first_bit(!bits, bit) {
        Some(at) => at - 1,
        None => 63,
    }
}

/// The numbers of spans in a window, as its bits.
pub fn bits_of(spans: &[Span], window: u64) -> u64
    requires intervals { All IsInterval spans.now }
    requires near { All (LiesIn window) spans.now }
    ensures { (s : ℕ) → BitCovers 64 (64 * window) result s ↔ Covers spans.now s }
{
    let mut bits = 0;
    for span in spans {
        bits |= mask(span.lo % 64, span.hi % 64);
    }
    bits
}
