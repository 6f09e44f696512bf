//! Fields that are read from the front of bytes, and fields that are missing.

use ssh_wire::{Cursor, WireFault};

// A call of a cursor, and its result.
#[derive(Clone, Copy)]
enum Step<'a> {
    Byte(Result<u8, WireFault>),
    Number(Result<u32, WireFault>),
    Long(Result<u64, WireFault>),
    Text(Result<&'a [u8], WireFault>),
    Magnitude(Result<&'a [u8], WireFault>),
    AtEnd(bool),
    Rest(&'a [u8]),
}

use Step::{AtEnd, Byte, Long, Magnitude, Number, Rest, Text};

// Whether a call returns the result of its step.
fn meets(cursor: &mut Cursor<'_>, step: Step<'_>) -> bool {
    match step {
        Byte(answer) => cursor.byte() == answer,
        Number(answer) => cursor.u32() == answer,
        Long(answer) => cursor.u64() == answer,
        Text(answer) => cursor.string() == answer,
        Magnitude(answer) => cursor.mpint() == answer,
        AtEnd(answer) => cursor.at_end() == answer,
        Rest(bytes) => cursor.rest() == bytes,
    }
}

// How many of the steps over the bytes return their result, up to the first that does not.
fn met(bytes: &[u8], steps: &[Step<'_>]) -> usize {
    let mut cursor = Cursor::new(bytes);
    for (at, step) in steps.iter().enumerate() {
        if !meets(&mut cursor, *step) {
            return at;
        }
    }
    steps.len()
}

#[test]
fn reads_a_row_of_fields(rt: HostRuntime) {
    let steps = [
        Byte(Ok(1)),
        Number(Ok(699_921_578)),
        Long(Ok(0x1_0000_0002)),
        Text(Ok(b"hi")),
        AtEnd(false),
        Rest(b"!"),
        Byte(Ok(33)),
        AtEnd(true),
    ];
    let bytes = b"\x01\x29\xb7\xf4\xaa\0\0\0\x01\0\0\0\x02\0\0\0\x02hi!";
    assert!(rt; met(bytes, &steps) == steps.len());
}

// The bytes of a number, and the result of reading it.
const NUMBERS: [(&[u8], Result<&[u8], WireFault>); 9] = [
    (b"\0\0\0\0", Ok(b"")),
    (b"\0\0\0\x02\0\x80", Ok(b"\x80")),
    (
        b"\0\0\0\x08\x09\xa3\x78\xf9\xb2\xe3\x32\xa7",
        Ok(b"\x09\xa3\x78\xf9\xb2\xe3\x32\xa7"),
    ),
    (b"\0\0\0\x01\0", Err(WireFault::NotShortest)),
    (b"\0\0\0\x02\0\x7f", Err(WireFault::NotShortest)),
    (b"\0\0\0\x01\x80", Err(WireFault::Negative)),
    (b"\0\0\0\x02\xed\xcc", Err(WireFault::Negative)),
    (b"\0\0\0\x05\xff\x21\x52\x41\x11", Err(WireFault::Negative)),
    (b"\0\0\0\x02\x01", Err(WireFault::Short)),
];

// Whether reading the number has this result, and takes all bytes or none.
fn reads(bytes: &[u8], read: Result<&[u8], WireFault>) -> bool {
    let left = if read.is_ok() { &[] } else { bytes };
    met(bytes, &[Magnitude(read), Rest(left)]) == 2
}

#[test]
fn reads_shortest_numbers_alone(rt: HostRuntime) {
    for (i, (bytes, read)) in NUMBERS.iter().enumerate() {
        assert!(rt; reads(*bytes, *read), "in case {i}");
    }
}
