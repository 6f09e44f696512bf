//! Differences of lists of a few entries.

use crate::tests::held::{Said, are_equal, held_of};
use list_diff::difference;
use serial_set::Spans;
use span_sets::Held;
use span_vec::SpanVec;
use std::alloc::Global;
use std::process::Abort;

const ALL: &[u8] = b"";

const A: &[u8] = b"A, an authority";

const B: &[u8] = b"B, another authority";

// The entries of two lists, and what the new one names and the old one does not.
struct Row {
    old: &'static [Said<'static>],
    new: &'static [Said<'static>],
    added: &'static [Said<'static>],
    removed: &'static [Said<'static>],
}

const ROWS: [Row; 9] = [
    Row {
        old: &[],
        new: &[],
        added: &[],
        removed: &[],
    },
    // Only the named entries count, not how they are cut.
    Row {
        old: &[Said::Serials(A, 100, 101)],
        new: &[Said::Serials(A, 100, 100)],
        added: &[],
        removed: &[Said::Serials(A, 101, 101)],
    },
    Row {
        old: &[Said::Serials(A, 1, 4), Said::Serials(A, 5, 9)],
        new: &[Said::Serials(A, 1, 9)],
        added: &[],
        removed: &[],
    },
    // Holes in an interval, and intervals across its ends.
    Row {
        old: &[
            Said::Serials(A, 5, 6),
            Said::Serials(A, 8, 8),
            Said::Serials(A, 20, 30),
        ],
        new: &[Said::Serials(A, 1, 25)],
        added: &[
            Said::Serials(A, 1, 4),
            Said::Serials(A, 7, 7),
            Said::Serials(A, 9, 19),
        ],
        removed: &[Said::Serials(A, 26, 30)],
    },
    Row {
        old: &[Said::Serials(A, 1, 1), Said::Serials(A, u64::MAX, u64::MAX)],
        new: &[Said::Serials(A, 1, u64::MAX)],
        added: &[Said::Serials(A, 2, u64::MAX - 1)],
        removed: &[],
    },
    // An authority that only one side has, and another one with the same number.
    Row {
        old: &[Said::Serials(A, 7, 7), Said::Id(A, b"bob")],
        new: &[Said::Serials(B, 7, 7), Said::Id(B, b"bob")],
        added: &[Said::Serials(B, 7, 7), Said::Id(B, b"bob")],
        removed: &[Said::Serials(A, 7, 7), Said::Id(A, b"bob")],
    },
    Row {
        old: &[Said::Serials(A, 7, 7)],
        new: &[Said::Serials(ALL, 7, 7)],
        added: &[Said::Serials(ALL, 7, 7)],
        removed: &[Said::Serials(A, 7, 7)],
    },
    // Key IDs, before, between and after others.
    Row {
        old: &[Said::Id(A, b"b"), Said::Id(A, b"d")],
        new: &[
            Said::Id(A, b""),
            Said::Id(A, b"b"),
            Said::Id(A, b"c"),
            Said::Id(A, b"e"),
        ],
        added: &[Said::Id(A, b""), Said::Id(A, b"c"), Said::Id(A, b"e")],
        removed: &[Said::Id(A, b"d")],
    },
    // A key and its hash are different names, and so are hashes of each kind.
    Row {
        old: &[
            Said::Key(b"a"),
            Said::Key(b"c"),
            Said::Sha1(1),
            Said::Sha256(2),
        ],
        new: &[
            Said::Key(b"b"),
            Said::Key(b"c"),
            Said::Sha1(2),
            Said::Sha256(2),
            Said::Sha256(3),
        ],
        added: &[Said::Key(b"b"), Said::Sha1(2), Said::Sha256(3)],
        removed: &[Said::Key(b"a"), Said::Sha1(1)],
    },
];

// The differences of each row, both ways.
fn rows_over<S: Spans>(rt: &impl Abort, alloc: Global) {
    for (i, row) in ROWS.iter().enumerate() {
        let old = held_of::<S>(rt, alloc, row.old);
        let new = held_of::<S>(rt, alloc, row.new);
        let added = difference(alloc, &old, &new).expect(rt, "there is memory");
        let removed = difference(alloc, &new, &old).expect(rt, "there is memory");
        assert!(rt;
            are_equal(&added, &held_of::<S>(rt, alloc, row.added)),
            "added in row {i}"
        );
        assert!(rt;
            are_equal(&removed, &held_of::<S>(rt, alloc, row.removed)),
            "removed in row {i}"
        );
        assert!(rt; added.is_nothing() == row.added.is_empty(), "in row {i}");
    }
}

#[test]
fn differences_over_each_set(rt: HostRuntime) {
    rows_over::<Held>(&rt, rt.alloc());
    rows_over::<SpanVec>(&rt, rt.alloc());
}
