//! Lists that would take much memory if they were not read a field at a time into sets.

use crate::tests::full::Full;
use crate::tests::lists::{list_of, read_from, spans_from};
use krl_core::{KrlFault, Revocations};
use span_sets::Held;
use span_vec::SpanVec;
use std::alloc::Global;
use std::process::Abort;
use test_fixtures::{BITMAP, Giver, Then, joined};

// The serials from 1 to 2^64-1.
const RANGE: &[u8] = b"\x01\0\0\0\x1d\0\0\0\0\0\0\0\0\x21\0\0\0\x10\0\0\0\0\0\0\0\x01\
\xff\xff\xff\xff\xff\xff\xff\xff";

// A bitmap of 1,000 bytes: 1,003 bytes of the list follow these.
const LONG_BITMAP: &[u8] = b"\x01\0\0\x04\x01\0\0\0\0\0\0\0\0\x22\0\0\x03\xf4\0\0\0\0\0\0\0\x01\
\0\0\x03\xe8";

// A set that allows only as many spans as the list has is large enough.
fn is_its_runs(rt: &impl Abort, alloc: Global) {
    let range = list_of(rt, alloc, RANGE);
    let spans = spans_from::<Full<SpanVec, 1>, &[u8]>(alloc, range.as_slice());
    assert!(rt; spans == Ok(1));
    let bitmap = list_of(rt, alloc, BITMAP);
    let spans = spans_from::<Full<SpanVec, 4>, &[u8]>(alloc, bitmap.as_slice());
    assert!(rt; spans == Ok(4));
}

// The number of additions to the set of the first authority.
fn additions_of(held: &Revocations<Full<SpanVec, 1000>>) -> Option<u64> {
    let listed = held.iter_authorities().next()?;
    Some(listed.spans().additions)
}

// The number of additions to the set of a list's only authority.
fn additions_from(alloc: Global, text: &[u8]) -> Result<Option<u64>, KrlFault> {
    match read_from::<Full<SpanVec, 1000>, &[u8]>(alloc, text) {
        Ok((_, held)) => Ok(additions_of(&held)),
        Err(fault) => Err(fault),
    }
}

// That set had this number of additions.
fn is_added(rt: &impl Abort, alloc: Global, sections: &[u8], expected: u64) {
    let text = list_of(rt, alloc, sections);
    assert!(rt; additions_from(alloc, &text) == Ok(Some(expected)));
}

// A range is not expanded, and only the runs of a bitmap are added.
fn is_added_once(rt: &impl Abort, alloc: Global) {
    is_added(rt, alloc, RANGE, 1);
    is_added(rt, alloc, BITMAP, 4);
    let others = [0xff; 999];
    let bits = joined(alloc, &[LONG_BITMAP, b"\x7f", &others]).expect(rt, "there is memory");
    is_added(rt, alloc, &bits, 1)
}

#[test]
fn each_run_is_added_once(rt: HostRuntime) {
    is_its_runs(&rt, rt.alloc());
    is_added_once(&rt, rt.alloc());
}

// The fault of a list, or how many keys it has.
fn keys_from(alloc: Global, reader: Giver<'_>) -> Result<usize, KrlFault> {
    match read_from::<Held, Giver<'_>>(alloc, reader) {
        Ok((_, held)) => Ok(held.keys()),
        Err(fault) => Err(fault),
    }
}

// A list that continues with zero bytes has this fault, or this number of keys.
fn is_reported(
    rt: &impl Abort,
    alloc: Global,
    sections: &[u8],
    zeros: usize,
    expected: Result<usize, KrlFault>,
) {
    let first = list_of(rt, alloc, sections);
    let mut reader = Giver::whole(&first);
    reader.then = Then::Zeros(zeros);
    assert!(rt; keys_from(alloc, reader) == expected);
}

// A key with the largest possible length.
const LONGEST: &[u8] = b"\x02\xff\xff\xff\xff\xff\xff\xff\xfb";

// The beginning of a list, the number of zero bytes after it, and the result.
type Row = (&'static [u8], usize, Result<usize, KrlFault>);

const LONG: [Row; 4] = [
    (LONGEST, usize::MAX, Err(KrlFault::TooLong)),
    (LONGEST, 1000, Err(KrlFault::EndsEarly)),
    // One key, in a list of 16,777,217 bytes.
    (b"\x02\x00\xff\xff\xd0\x00\xff\xff\xcc", 16_777_164, Ok(1)),
    // One key, in a list of 67,108,864 bytes.
    (b"\x02\x03\xff\xff\xcf\x03\xff\xff\xcb", 67_108_811, Ok(1)),
];

// An endless reader reaches the limit, and a list is read up to it.
#[test]
fn reads_up_to_the_limit(rt: HostRuntime) {
    for (sections, zeros, expected) in &LONG {
        is_reported(&rt, rt.alloc(), *sections, *zeros, *expected);
    }
}
