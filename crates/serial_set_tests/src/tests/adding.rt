//! Adding intervals, one after another.
use crate::tests::sets::{add, empty, has_just};
use serial_set::{Span, Spans};
use span_sets::SpanPages;
use span_vec::SpanVec;
use std::alloc::Global;
use std::process::Abort;

// Intervals that are added one after another, each with the length afterwards, and the final list.
type Row = (&'static [(u64, u64, usize)], &'static [Span]);

const ROWS: [Row; 3] = [
    (
        &[(5, 5, 1), (7, 7, 2), (6, 6, 1), (8, u64::MAX, 1)],
        &[Span {
            lo: 5,
            hi: u64::MAX,
        }],
    ),
    (&[(5, 5, 1), (5, 5, 1), (1, 9, 1)], &[Span { lo: 1, hi: 9 }]),
    // an only chunk, others after and before it, and an interval that joins the first two
    (
        &[(1000, 2000, 1), (5, 5, 2), (3000, 3000, 3), (60, 999, 3)],
        &[
            Span { lo: 5, hi: 5 },
            Span { lo: 60, hi: 2000 },
            Span { lo: 3000, hi: 3000 },
        ],
    ),
];

// Each interval leads to the length beside it, and the last one to the list.
fn adds<S: Spans>(rt: &impl Abort, alloc: Global, number: usize, row: &Row) {
    let (intervals, last) = *row;
    let mut set: S = empty(rt, alloc);
    for (lo, hi, length) in intervals {
        add(rt, &mut set, *lo, *hi);
        assert!(rt; set.len() == *length, "in case {number}");
    }
    assert!(rt; has_just(&set, last), "in case {number}");
}

#[test]
fn adds_intervals(rt: HostRuntime) {
    for (i, row) in ROWS.iter().enumerate() {
        adds::<SpanVec>(&rt, rt.alloc(), i, row);
        adds::<SpanPages>(&rt, rt.alloc(), i, row);
    }
}
