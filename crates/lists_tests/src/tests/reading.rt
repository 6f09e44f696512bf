//! Lists, read from a slice and in pieces.

use crate::tests::lists::{list_of, spans_from};
use crate::tests::rows::{ROWS, Row};
use byte_streams::FromRead;
use krl_core::{KrlFault, Reading};
use serial_set::Spans;
use span_sets::Held;
use span_vec::SpanVec;
use std::alloc::Global;
use std::process::Abort;
use test_fixtures::{BITMAP, FIVE, Giver, HEADER, Then};

// The fault of a list, or the number of its spans.
fn reported(alloc: Global, giver: Giver<'_>) -> Result<u128, KrlFault> {
    spans_from::<Held, Giver<'_>>(alloc, giver)
}

// The list of a row gives the result of the row, in pieces of each size.
fn is_reported_in_pieces<S: Spans>(rt: &impl Abort, alloc: Global, text: &[u8], row: &Row) {
    for per_call in [1, 3, 7, 1000] {
        let found = spans_from::<S, Giver<'_>>(alloc, Giver::new(text, per_call));
        assert!(rt; found == row.1, "in case {per_call}");
    }
}

#[test]
fn rows_in_pieces(rt: HostRuntime) {
    for row in &ROWS {
        let text = list_of(&rt, rt.alloc(), row.0);
        is_reported_in_pieces::<Held>(&rt, rt.alloc(), &text, row);
        is_reported_in_pieces::<SpanVec>(&rt, rt.alloc(), &text, row);
    }
}

// Gives the bytes five at a call, and fails where they end.
fn failing(bytes: &[u8]) -> Giver<'_> {
    let mut giver = Giver::new(bytes, 5);
    giver.then = Then::Fails;
    giver
}

// A truncated list has its fault, or that of the reader if the reader fails.
fn front_is_reported(rt: &impl Abort, alloc: Global, front: &[u8], whole: usize) {
    let ends = front.len() == 44 || front.len() == whole;
    let fault = if ends {
        None
    } else {
        Some(KrlFault::EndsEarly)
    };
    let found = reported(alloc, Giver::new(front, 1000)).err();
    assert!(rt; found == fault, "in case {}", front.len());
    let found = reported(alloc, failing(front)).err();
    assert!(rt; found == Some(KrlFault::Read), "in case {}", front.len());
}

#[test]
fn each_front_of_a_list(rt: HostRuntime) {
    for (sections, whole) in [(FIVE, 70), (ROWS[12].0, 121)] {
        let text = list_of(&rt, rt.alloc(), sections);
        assert!(rt; text.len() == whole);
        for n in 0..=text.len() {
            front_is_reported(&rt, rt.alloc(), &text[..n], whole);
        }
    }
}

// Reading from the giver has this fault.
fn is_refused(rt: &impl Abort, alloc: Global, giver: Giver<'_>, fault: KrlFault) {
    assert!(rt; reported(alloc, giver).err() == Some(fault));
}

const FRONTS: [(&[u8], KrlFault); 3] = [
    (b"", KrlFault::EndsEarly),
    (b"\0\0\0", KrlFault::EndsEarly),
    (b"\0\0\0\0\0\0\0\0", KrlFault::Magic),
];

// The offset of a header byte, its new value, and the fault.
const CHANGES: [(usize, u8, KrlFault); 4] = [
    (0, 0x54, KrlFault::Magic),
    (11, 2, KrlFault::FormatVersion),
    (36, 255, KrlFault::EndsEarly),
    (40, 255, KrlFault::EndsEarly),
];

#[test]
fn faults_of_the_header(rt: HostRuntime) {
    for (bytes, fault) in &FRONTS {
        is_refused(&rt, rt.alloc(), Giver::new(*bytes, 1000), *fault);
    }
    for (place, byte, fault) in &CHANGES {
        let mut text = HEADER;
        if let Some(there) = text.get_mut(*place) {
            *there = *byte;
        }
        is_refused(&rt, rt.alloc(), Giver::whole(&text), *fault);
    }
}

// A fault of the bytes comes before that of the reader.
#[test]
fn a_fault_before_the_reader_fails(rt: HostRuntime) {
    let text = list_of(&rt, rt.alloc(), b"\x99");
    is_refused(&rt, rt.alloc(), failing(&text), KrlFault::UnknownSection);
}

#[test]
fn interruptions_are_passed_over(rt: HostRuntime) {
    let text = list_of(&rt, rt.alloc(), FIVE);
    for (interruptions, expected) in [(1000, Ok(1)), (1001, Err(KrlFault::Read))] {
        let mut giver = Giver::new(&text, 7);
        giver.interruptions = interruptions;
        assert!(rt; reported(rt.alloc(), giver) == expected);
    }
}

// A list that is read from a slice.
type OfSlice<'a> = Reading<Held, FromRead<&'a [u8]>>;

// Reads one more field, or reports the end of the list.
fn step(reading: &mut OfSlice<'_>) -> Result<bool, KrlFault> {
    reading.step()
}

// The number of bytes taken.
fn taken(reading: &OfSlice<'_>) -> u64 {
    reading.taken()
}

// The number of spans stored.
fn held(reading: &OfSlice<'_>) -> u128 {
    reading.held()
}

// The spans of the list are stored once its last byte was read.
fn hold_at_each_moment(rt: &impl Abort, reading: &mut OfSlice<'_>) {
    for at in 0..100 {
        if step(reading) != Ok(true) {
            break;
        }
        let expected = if taken(reading) < 75 { 0 } else { 4 };
        assert!(rt; held(reading) == expected, "in case {at}");
    }
}

// The list has ended, and every later step reports that too.
fn stays_at_the_end(rt: &impl Abort, reading: &mut OfSlice<'_>) {
    assert!(rt; taken(reading) == 75);
    for _ in 0..2 {
        assert!(rt; step(reading) == Ok(false));
    }
}

// The version of a list that was read to its end, and the number of its spans.
fn done(mut reading: OfSlice<'_>) -> Result<(u64, u128), KrlFault> {
    if reading.step()? {
        return Ok((0, 0));
    }
    let (header, held, _) = reading.done();
    Ok((header.version, held.held()))
}

#[test]
fn held_at_each_moment(rt: HostRuntime) {
    let text = list_of(&rt, rt.alloc(), BITMAP);
    let mut reading = OfSlice::new(rt.alloc(), FromRead::new(text.as_slice()));
    hold_at_each_moment(&rt, &mut reading);
    stays_at_the_end(&rt, &mut reading);
    assert!(rt; done(reading) == Ok((1, 4)));
}

// With each byte of the list changed in turn, reading it whole and byte by byte gives the same.
fn each_byte_is_set(rt: &impl Abort, alloc: Global, text: &mut Vec<u8>) {
    for at in 0..text.len() {
        let kept = text.get(at).copied().unwrap_or(0);
        for byte in [0x00, 0x7f, 0x80, 0xff, kept] {
            if let Some(there) = text.get_mut(at) {
                *there = byte;
            }
            let found = reported(alloc, Giver::whole(text.as_slice()));
            assert!(rt; found != Err(KrlFault::TooLong), "in case {at}");
            assert!(rt;
                reported(alloc, Giver::new(text.as_slice(), 1)) == found,
                "in case {at}"
            );
        }
    }
}

#[test]
fn any_byte_changed(rt: HostRuntime) {
    // the lists of a key, of a bitmap, and of a serial of an authority
    for row in [&ROWS[3], &ROWS[5], &ROWS[12]] {
        let mut text = list_of(&rt, rt.alloc(), row.0);
        each_byte_is_set(&rt, rt.alloc(), &mut text);
    }
}
