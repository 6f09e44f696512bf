//! The serial numbers among the topics.

ghost use Rattle.std.specs.Prelude.{◌≡◌, ◌%◌, ◌≤◌, ℕ, false, length};
ghost use Rattle.serial_set.specs.Span.{Covers};
ghost use Rattle.krl_entries.specs.Revocations.{HoldsSerial};
ghost use Rattle.krl_entries.specs.Scope.{NoneHolds};
ghost use Rattle.krl_queries.specs.Questions.{IsFirst};

use krl_entries::Revocations;
use serial_set::Spans;
use ssh_wire::u64_of;

// Whether some serial number from `lo` to `hi` may be a topic under exactly this authority.
pub(crate) fn may_have<S: Spans>(
    topics: &Revocations<S>,
    authority: &[u8],
    lo: u64,
    hi: u64,
) -> bool
    ensures { result ≡ false → (s : ℕ) → lo ≤ s → s ≤ hi
        → HoldsSerial topics.now.sections authority.now s → ⊥ }
{
    match topics.section(authority) {
        None => false,
        Some(section) => section.spans().meets(lo, hi),
    }
}

// The first serial number from `lo` to `hi` that is a topic under exactly this authority.
pub(crate) fn first_serial<S: Spans>(
    topics: &Revocations<S>,
    authority: &[u8],
    lo: u64,
    hi: u64,
) -> Option<u64>
    ensures { IsFirst (HoldsSerial topics.now.sections authority.now) lo hi result }
{
    match topics.section(authority) {
        None => None,
        Some(section) => first_from(section.spans(), lo, hi),
    }
}

// How many bytes at the front of some serial numbers belong to numbers that are no topics under
// exactly this authority. Each number is eight bytes long.
pub(crate) fn count_skipped<S: Spans>(
    topics: &Revocations<S>,
    authority: &[u8],
    serials: &[u8],
) -> usize
    ensures within { result ≤ length serials.now }
    ensures whole { result % 8 ≡ 0 }
    ensures none { NoneHolds (HoldsSerial topics.now.sections authority.now) serials.now result }
{
    match topics.section(authority) {
        None => serials.len() / 8 * 8,
        Some(section) => count_others(section.spans(), serials),
    }
}

// The first number from `lo` to `hi` that is a member of a set.
fn first_from<S: Spans>(set: &S, lo: u64, hi: u64) -> Option<u64>
    ensures { IsFirst (Covers (S.spans set.now)) lo hi result }
{
    if !set.meets(lo, hi) {
        return None;
    }
    let piece = set.piece_from(lo);
    let runs = piece.as_slice();
    if runs.is_empty() {
        return None;
    }
    let first = runs[0].lo;
    if hi < first { None } else { Some(first) }
}

// How many bytes at the front of some serial numbers belong to numbers that are not in a set.
fn count_others<S: Spans>(set: &S, serials: &[u8]) -> usize
    ensures within { result ≤ length serials.now }
    ensures whole { result % 8 ≡ 0 }
    ensures none { NoneHolds (Covers (S.spans set.now)) serials.now result }
{
    let mut at = 0;
    while serials.len() - at >= 8 {
        if set.has(u64_of(&serials[at..at + 8])) {
            break;
        }
        at += 8;
    }
    at
}
