//! Whole lists (PROTOCOL.krl), byte for byte, each read back.

use crate::tests::lists::{list_of, read_from, text_of};
use crate::tests::said::{ALL, Said, held_of, held_of_runs};
use krl_core::Revocations;
use span_sets::Held;
use std::alloc::Global;
use std::process::Abort;
use test_fixtures::{EIGHT_AND_ONE, joined};

// The revocations are written as the header and these bytes, and reading these gives the same text
// again.
fn is_written(rt: &impl Abort, alloc: Global, held: &Revocations<Held>, sections: &[u8]) {
    let text = text_of(rt, alloc, held);
    assert!(rt; text.as_slice() == list_of(rt, alloc, sections).as_slice());
    let (_, held) = read_from::<Held, &[u8]>(alloc, &text).expect(rt, "the list is spelled");
    assert!(rt; text_of(rt, alloc, &held).as_slice() == text.as_slice());
}

// Serials of all authorities are written as these subsections.
fn serials(rt: &impl Abort, alloc: Global, runs: &[(u64, u64)], subsections: &[u8]) {
    let [.., a, b, c, d] = subsections.len().saturating_add(8).to_be_bytes();
    let front = [1, a, b, c, d, 0, 0, 0, 0, 0, 0, 0, 0];
    let section = joined(alloc, &[&front, subsections]).expect(rt, "there is memory");
    is_written(rt, alloc, &held_of_runs(rt, alloc, runs), &section)
}

// The ends of runs of serials, and the subsections that name them.
type Row = (&'static [(u64, u64)], &'static [u8]);

const SERIALS: [Row; 11] = [
    (&[(5, 5)], b"\x20\0\0\0\x08\0\0\0\0\0\0\0\x05"),
    (
        &[(5, 5), (6, 6)],
        b"\x22\0\0\0\x0d\0\0\0\0\0\0\0\x05\0\0\0\x01\x03",
    ),
    (
        &[(1, 1), (3, 3), (5, 5), (7, 7)],
        b"\x22\0\0\0\x0d\0\0\0\0\0\0\0\x01\0\0\0\x01\x55",
    ),
    (
        &[(5, 5), (5, 5), (1, 9)],
        b"\x22\0\0\0\x0e\0\0\0\0\0\0\0\x01\0\0\0\x02\x01\xff",
    ),
    (
        &[(1, 2), (4, 5)],
        b"\x22\0\0\0\x0d\0\0\0\0\0\0\0\x01\0\0\0\x01\x1b",
    ),
    (
        &[(u64::MAX - 1, u64::MAX)],
        b"\x22\0\0\0\x0d\xff\xff\xff\xff\xff\xff\xff\xfe\0\0\0\x01\x03",
    ),
    (
        &[(1, u64::MAX)],
        b"\x21\0\0\0\x10\0\0\0\0\0\0\0\x01\xff\xff\xff\xff\xff\xff\xff\xff",
    ),
    (
        &[(1, 10_000)],
        b"\x21\0\0\0\x10\0\0\0\0\0\0\0\x01\0\0\0\0\0\0\x27\x10",
    ),
    // A range costs as much as the bitmap, and is preferred.
    (
        &[(1, 24)],
        b"\x21\0\0\0\x10\0\0\0\0\0\0\0\x01\0\0\0\0\0\0\0\x18",
    ),
    (
        &[(1, 1), (1_000_000, 1_000_000)],
        b"\x20\0\0\0\x10\0\0\0\0\0\0\0\x01\0\0\0\0\0\x0f\x42\x40",
    ),
    // The longest list of serials would take 77 bytes.
    (
        EIGHT_AND_ONE,
        b"\x20\0\0\0\x08\0\0\0\0\0\0\0\x01\
\x22\0\0\0\x0e\0\0\0\0\0\x0f\x42\x40\0\0\0\x02\x55\x55",
    ),
];

// 128 odd serials are one bitmap of 32 bytes.
fn odd_serials_are_written(rt: &impl Abort, alloc: Global) {
    let mut runs = Vec::new(alloc);
    for half in 0..128u64 {
        runs.push((2 * half + 1, 2 * half + 1))
            .expect(rt, "there is memory");
    }
    let front = b"\x22\0\0\0\x2c\0\0\0\0\0\0\0\x01\0\0\0\x20";
    let expected = joined(alloc, &[front, &[0x55; 32]]).expect(rt, "there is memory");
    serials(rt, alloc, &runs, &expected)
}

#[test]
fn writes_serials(rt: HostRuntime) {
    for (ends, expected) in &SERIALS {
        serials(&rt, rt.alloc(), *ends, *expected);
    }
    odd_serials_are_written(&rt, rt.alloc());
}

// The SHA-1 of `j`, and the SHA-256 of `k`.
const J: &[u8] = b"\x5c\x2d\xd9\x44\xdd\xe9\xe0\x88\x81\xbe\xf0\x89\x4f\xe7\xb2\x2a\x5c\x9c\x4b\
\x06";

const K: &[u8] = b"\x82\x54\xc3\x29\xa9\x28\x50\xf6\xd5\x39\xdd\x37\x6f\x48\x16\xee\x27\x64\x51\
\x7d\xa5\xe0\x23\x55\x14\xaf\x43\x31\x64\x48\x0d\x7a";

// Entries, and the sections that are written: in order and without duplicates.
const SAID: [(&[Said<'static>], &[u8]); 5] = [
    (&[], b""),
    (
        &[
            Said::Id(ALL, b"b"),
            Said::Id(ALL, b"a"),
            Said::Id(ALL, b"b"),
        ],
        b"\x01\0\0\0\x17\0\0\0\0\0\0\0\0\x23\0\0\0\x0a\0\0\0\x01a\0\0\0\x01b",
    ),
    (
        &[Said::Id(b"z", b"i"), Said::Serials(b"y", 7, 7)],
        b"\x01\0\0\0\x16\0\0\0\x01y\0\0\0\0\x20\0\0\0\x08\0\0\0\0\0\0\0\x07\
\x01\0\0\0\x13\0\0\0\x01z\0\0\0\0\x23\0\0\0\x05\0\0\0\x01i",
    ),
    (
        &[Said::Key(b"k"), Said::Key(b"j"), Said::Key(b"k")],
        b"\x02\0\0\0\x0a\0\0\0\x01j\0\0\0\x01k",
    ),
    (
        &[Said::Sha256(K), Said::Sha1(J)],
        b"\x03\x00\x00\x00\x18\x00\x00\x00\x14\x5c\x2d\xd9\x44\xdd\xe9\xe0\x88\x81\xbe\xf0\x89\x4f\
\xe7\xb2\x2a\x5c\x9c\x4b\x06\x05\x00\x00\x00\x24\x00\x00\x00\x20\x82\x54\xc3\x29\xa9\x28\x50\xf6\
\xd5\x39\xdd\x37\x6f\x48\x16\xee\x27\x64\x51\x7d\xa5\xe0\x23\x55\x14\xaf\x43\x31\x64\x48\x0d\x7a",
    ),
];

#[test]
fn writes_entries_in_order_and_once(rt: HostRuntime) {
    for (all, expected) in &SAID {
        is_written(
            &rt,
            rt.alloc(),
            &held_of::<Held>(&rt, rt.alloc(), *all),
            *expected,
        );
    }
}
