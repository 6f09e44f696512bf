//! Making and filling sets, for any representation.

ghost use Rattle.std.specs.Prelude.{◌<◌, ◌≤◌};

use serial_set::{Span, Spans};
use std::alloc::Global;
use std::process::Abort;

/// A set of no spans.
pub fn empty<S: Spans>(rt: &impl Abort, alloc: Global) -> S {
    S::empty(alloc).expect(rt, "there is memory")
}

/// Adds an interval, which is not empty and begins above 0.
pub fn add<S: Spans>(rt: &impl Abort, set: &mut S, lo: u64, hi: u64) {
    assert!(rt; 0 < lo && lo <= hi);
    set.add(lo, hi).expect(rt, "there is memory");
}

/// Whether the set has a span at a position, with its ends and none below them.
pub fn has_span<S: Spans>(set: &S, at: usize, span: Span) -> bool {
    at < set.len()
        && set.get(at) == span
        && set.has(span.lo)
        && set.has(span.hi)
        && !set.has(span.lo.saturating_sub(1))
}

/// Whether the set has exactly these spans.
pub fn has_just<S: Spans>(set: &S, spans: &[Span]) -> bool {
    for (at, span) in spans.iter().enumerate() {
        if !has_span(set, at, *span) {
            return false;
        }
    }
    set.len() == spans.len()
}
