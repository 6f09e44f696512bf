//! Bitmaps, byte by byte, and their faults.
use crate::tests::sets::{add, empty, has_just};
use serial_set::{BitFault, BitRuns, Span, Spans};
use span_sets::Held;
use std::alloc::Global;
use std::process::Abort;

// An offset, the bytes of a bitmap, and its runs or its fault.
type Row = (u64, &'static [u8], Result<&'static [Span], BitFault>);

// The runs of a bitmap, or its fault.
fn read(rt: &impl Abort, alloc: Global, offset: u64, bytes: &[u8]) -> Result<Held, BitFault> {
    let mut set: Held = empty(rt, alloc);
    let Ok(len) = u32::try_from(bytes.len()) else {
        assert!(rt; false);
        return Ok(set);
    };
    let mut bits = BitRuns::new(offset, len);
    for byte in bytes {
        let finished = bits.feed(*byte)?;
        for run in finished.as_slice() {
            add(rt, &mut set, run.lo, run.hi);
        }
    }
    if let Some(run) = bits.end() {
        add(rt, &mut set, run.lo, run.hi);
    }
    Ok(set)
}

// The bitmap has the expected runs or the expected fault.
fn reads(rt: &impl Abort, alloc: Global, number: usize, row: &Row) {
    let (offset, bytes, expected) = *row;
    match (read(rt, alloc, offset, bytes), expected) {
        (Ok(set), Ok(runs)) => assert!(rt; has_just(&set, runs), "in case {number}"),
        (Err(fault), Err(expected)) => assert!(rt; fault == expected, "in case {number}"),
        _ => assert!(rt; false, "in case {number}"),
    }
}

const LAST: &[Span] = &[Span {
    lo: u64::MAX,
    hi: u64::MAX,
}];

const ROWS: [Row; 12] = [
    (
        1,
        &[0x55],
        Ok(&[
            Span { lo: 1, hi: 1 },
            Span { lo: 3, hi: 3 },
            Span { lo: 5, hi: 5 },
            Span { lo: 7, hi: 7 },
        ]),
    ),
    (1, &[0x01, 0x80], Ok(&[Span { lo: 8, hi: 9 }])),
    (1, &[0x00, 0x01, 0x80], Ok(&[Span { lo: 8, hi: 9 }])),
    (0, &[0x01], Ok(&[])),
    (0, &[0x0f], Ok(&[Span { lo: 1, hi: 3 }])),
    (u64::MAX, &[0x01], Ok(LAST)),
    (u64::MAX, &[0x00, 0x00, 0x01], Ok(LAST)),
    (u64::MAX - 8, &[0x00, 0x01, 0x00], Ok(LAST)),
    (u64::MAX, &[0x02], Err(BitFault::Wraps)),
    (u64::MAX, &[0x80, 0x00], Err(BitFault::Negative)),
    (1, &[0x80], Err(BitFault::Negative)),
    (1, &[], Ok(&[])),
];

#[test]
fn reads_bitmaps(rt: HostRuntime) {
    for (i, row) in ROWS.iter().enumerate() {
        reads(&rt, rt.alloc(), i, row);
    }
}

// A run over a thousand bytes is never split.
#[test]
fn goes_on_over_bytes(rt: HostRuntime) {
    let mut bytes = vec![in rt.alloc(); 0xff; 1000].expect(&rt, "there is memory");
    if let Some(first) = bytes.first_mut() {
        *first = 0x7f;
    }
    let set = read(&rt, rt.alloc(), 1, &bytes)
        .ok()
        .expect(&rt, "it is no fault");
    assert!(rt; has_just(&set, &[Span { lo: 1, hi: 7999 }]));
}

// The runs that finish at a byte come highest first, and the run that is open then is pending.
#[test]
fn the_lowest_run_is_pending(rt: HostRuntime) {
    let mut bits = BitRuns::new(1, 1);
    let finished = bits.feed(0x55).ok().expect(&rt, "it is no fault");
    assert!(rt; finished.as_slice().first() == Some(&Span { lo: 7, hi: 7 }));
    assert!(rt; finished.as_slice().len() == 3);
    let pending = bits.pending();
    assert!(rt; pending == Some(Span { lo: 1, hi: 1 }));
    assert!(rt; bits.end() == pending);
}
