//! Spans that are added in one change if they are near each other.

ghost use Rattle.std.specs.Prelude.{◌<◌, length, All};
ghost use Rattle.serial_set.specs.BitRuns.{IsInterval};

use crate::tests::sets::{add, empty, has_just};
use serial_set::{Span, Spans, count_near};
use span_sets::SpanPages;
use span_vec::SpanVec;
use std::alloc::{AllocError, Global};
use std::process::Abort;

// Adds as many of the spans as are near the first, and returns how many.
fn add_first<S: Spans>(set: &mut S, spans: &[Span]) -> Result<usize, AllocError>
    requires some { 0 < length spans.now }
    requires intervals { All IsInterval spans.now }
{
    let count = count_near(spans);
    set.add_near(&spans[..count])?;
    Ok(count)
}

// A set of two spans, to which three more are added, two of them in one window.
fn adds_near<S: Spans>(rt: &impl Abort, alloc: Global) {
    let mut set: S = empty(rt, alloc);
    add(rt, &mut set, 130, 131);
    add(rt, &mut set, 200, 300);
    let near = [
        Span { lo: 140, hi: 150 },
        Span { lo: 132, hi: 132 },
        Span { lo: 63, hi: 63 },
    ];
    assert!(rt; add_first(&mut set, &near) == Ok(2));
    let spans = [
        Span { lo: 130, hi: 132 },
        Span { lo: 140, hi: 150 },
        Span { lo: 200, hi: 300 },
    ];
    assert!(rt; has_just(&set, &spans));
}

#[test]
fn adds_near_spans(rt: HostRuntime) {
    adds_near::<SpanVec>(&rt, rt.alloc());
    adds_near::<SpanPages>(&rt, rt.alloc());
}
