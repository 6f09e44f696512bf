//! Fields from readers that give few bytes at a call, fail, or never end.

use byte_streams::{FromRead, Pull};
use ssh_wire::PullFault;
use std::alloc::{AllocError, Global};
use test_fixtures::{Giver, Then};

/// A call of a reader, and its result.
#[derive(Clone, Copy)]
pub enum Step<'a> {
    Byte(Result<u8, PullFault>),
    Array(Result<[u8; 4], PullFault>),
    Fills(&'a [u8]),
    Bytes(&'a [u8]),
    BytesInto(&'a [u8]),
    Refuses(usize, PullFault),
    Rest(&'a [u8]),
    RestRefused(PullFault),
    AtEnd(Result<bool, PullFault>),
    Taken(u64),
}

use Step::{Array, AtEnd, Byte, Bytes, BytesInto, Fills, Refuses, Rest, RestRefused, Taken};

/// A reader that gives its bytes in pieces, with a limit.
pub type Reader<'a> = Pull<FromRead<Giver<'a>>>;

/// A reader of bytes in pieces, and its behaviour after them.
pub fn pull(bytes: &[u8], per_call: usize, then: Then, limit: u64) -> Reader<'_> {
    let mut giver = Giver::new(bytes, per_call);
    giver.then = then;
    Pull::new(FromRead::new(giver), limit)
}

// Whether a slice is filled.
fn fill(reader: &mut Reader<'_>, into: &mut [u8]) -> bool {
    reader.fill(into).is_ok()
}

// Whether a slice of their length is filled with these bytes.
fn fills(reader: &mut Reader<'_>, alloc: Global, field: &[u8]) -> Result<bool, AllocError> {
    let mut into = vec![in alloc; 0; field.len()]?;
    Ok(fill(reader, &mut into) && into.as_slice() == field)
}

// Whether these bytes are returned in a vector.
fn gives(reader: &mut Reader<'_>, alloc: Global, field: &[u8]) -> bool {
    match reader.bytes(alloc, field.len()) {
        Ok(bytes) => bytes.as_slice() == field,
        Err(_) => false,
    }
}

// Whether a vector that had other content has these bytes now.
fn holds(reader: &mut Reader<'_>, alloc: Global, field: &[u8]) -> Result<bool, AllocError> {
    let mut out = vec![in alloc; 9, 9, 9]?;
    Ok(reader.bytes_into(&mut out, field.len()).is_ok() && out.as_slice() == field)
}

// Whether taking a field has this fault, and leaves the vector empty and with little memory.
fn refuses(
    reader: &mut Reader<'_>,
    alloc: Global,
    size: usize,
    fault: PullFault,
) -> Result<bool, AllocError> {
    let mut out = vec![in alloc; 9, 9, 9]?;
    let answer = reader.bytes_into(&mut out, size);
    Ok(answer == Err(fault) && out.is_empty() && out.capacity() <= 1000)
}

// Whether these bytes are all that is left.
fn gives_rest(reader: &mut Reader<'_>, alloc: Global, bytes: &[u8]) -> Result<bool, PullFault> {
    Ok(reader.rest(alloc)?.as_slice() == bytes)
}

// Whether taking the rest has this fault.
fn refuses_rest(reader: &mut Reader<'_>, alloc: Global, fault: PullFault) -> bool {
    match reader.rest(alloc) {
        Ok(_) => false,
        Err(found) => found == fault,
    }
}

// Whether a call returns the result of its step.
fn meets(reader: &mut Reader<'_>, alloc: Global, step: Step<'_>) -> Result<bool, AllocError> {
    Ok(match step {
        Byte(answer) => reader.byte() == answer,
        Array(answer) => reader.array() == answer,
        Fills(field) => fills(reader, alloc, field)?,
        Bytes(field) => gives(reader, alloc, field),
        BytesInto(field) => holds(reader, alloc, field)?,
        Refuses(size, fault) => refuses(reader, alloc, size, fault)?,
        Rest(bytes) => gives_rest(reader, alloc, bytes) == Ok(true),
        RestRefused(fault) => refuses_rest(reader, alloc, fault),
        AtEnd(answer) => reader.at_end() == answer,
        Taken(count) => reader.taken() == count,
    })
}

/// Whether each of the steps returns its result.
pub fn meets_all(
    reader: &mut Reader<'_>,
    alloc: Global,
    steps: &[Step<'_>],
) -> Result<bool, AllocError> {
    for step in steps {
        if !meets(reader, alloc, *step)? {
            return Ok(false);
        }
    }
    Ok(true)
}

/// The bytes that the readers give.
pub const TEXT: &[u8] = b"\x01\0\0\0\x02hi0123456789abcdef";

// Calls of a reader of the text, with its behaviour after that and its limit.
struct Row<'a> {
    then: Then,
    limit: u64,
    steps: &'a [Step<'a>],
}

const ROWS: [Row<'static>; 7] = [
    // Each call takes the next bytes, and looking ahead takes none.
    Row {
        then: Then::Ends,
        limit: 100,
        steps: &[
            Taken(0),
            Byte(Ok(1)),
            Array(Ok([0, 0, 0, 2])),
            Taken(5),
            Bytes(b"hi"),
            AtEnd(Ok(false)),
            Taken(7),
            Byte(Ok(b'0')),
            AtEnd(Ok(false)),
            Fills(b"123"),
            AtEnd(Ok(false)),
            AtEnd(Ok(false)),
            Fills(b""),
            Bytes(b""),
            BytesInto(b"456789abcd"),
            Taken(21),
            BytesInto(b""),
            AtEnd(Ok(false)),
            BytesInto(b"ef"),
            AtEnd(Ok(true)),
            Taken(23),
            Byte(Err(PullFault::EndsEarly)),
            Taken(23),
            AtEnd(Err(PullFault::EndsEarly)),
        ],
    },
    // A field that is truncated, at the limit and far from it; then the same fault from each call.
    Row {
        then: Then::Ends,
        limit: 23,
        steps: &[
            Bytes(b"\x01\0\0\0\x02hi0123456789abc"),
            AtEnd(Ok(false)),
            Array(Err(PullFault::EndsEarly)),
            Taken(20),
            AtEnd(Err(PullFault::EndsEarly)),
            Byte(Err(PullFault::EndsEarly)),
            Array(Err(PullFault::EndsEarly)),
            Refuses(0, PullFault::EndsEarly),
        ],
    },
    // A false length takes no memory, whether it exceeds the limit or not.
    Row {
        then: Then::Ends,
        limit: u64::MAX,
        steps: &[Refuses(usize::MAX, PullFault::EndsEarly)],
    },
    Row {
        then: Then::Ends,
        limit: 1000,
        steps: &[
            Byte(Ok(1)),
            Refuses(0xffff_ffff, PullFault::EndsEarly),
            Taken(1),
        ],
    },
    // Bytes past the limit.
    Row {
        then: Then::Ends,
        limit: 7,
        steps: &[
            Fills(b"\x01\0\0\0\x02hi"),
            Fills(b""),
            Byte(Err(PullFault::TooLong)),
            AtEnd(Err(PullFault::TooLong)),
            Refuses(1, PullFault::TooLong),
        ],
    },
    Row {
        then: Then::Zeros(usize::MAX),
        limit: 100_000,
        steps: &[
            AtEnd(Ok(false)),
            Byte(Ok(1)),
            Refuses(100_000, PullFault::TooLong),
            Taken(1),
        ],
    },
    // A failure is not an end.
    Row {
        then: Then::Fails,
        limit: 100,
        steps: &[
            Fills(b"\x01\0\0\0\x02hi0123456789abc"),
            Array(Err(PullFault::Read)),
            Taken(20),
            AtEnd(Err(PullFault::Read)),
            Byte(Err(PullFault::Read)),
            Refuses(0, PullFault::Read),
        ],
    },
];

#[test]
fn answers_do_not_hang_on_the_pieces(rt: HostRuntime) {
    for (i, row) in ROWS.iter().enumerate() {
        for per_call in [1, 3, 7, 64] {
            let mut reader = pull(TEXT, per_call, row.then, row.limit);
            let right = meets_all(&mut reader, rt.alloc(), row.steps).expect(
                &rt,
                "there is memory",
            );
            assert!(rt; right, "in case {i}");
        }
    }
}

/// `size` bytes: those from 0 to 250, again and again.
pub fn text_of(alloc: Global, size: u64) -> Result<Vec<u8>, AllocError> {
    let mut text = Vec::new(alloc);
    let mut byte: u8 = 0;
    for _ in 0..size {
        text.push(byte)?;
        byte = if byte == 250 { 0 } else { byte.wrapping_add(1) };
    }
    Ok(text)
}

// Whether these bytes come whole, at this number of bytes a call.
fn comes_whole(
    alloc: Global,
    text: &[u8],
    field: &[u8],
    per_call: usize,
) -> Result<bool, AllocError> {
    let steps = [AtEnd(Ok(false)), Bytes(field), Taken(field.len() as u64)];
    let mut reader = pull(text, per_call, Then::Ends, 70_000);
    meets_all(&mut reader, alloc, &steps)
}

#[test]
fn large_fields_come_whole(rt: HostRuntime) {
    let text = text_of(rt.alloc(), 70_000).expect(&rt, "there is memory");
    for size in [255, 256, 257, 4097, 65_536, 70_000] {
        let field = text.get(..size).expect(&rt, "the text is longer");
        for per_call in [7, 1000, 100_000] {
            let right = comes_whole(rt.alloc(), &text, field, per_call).expect(
                &rt,
                "there is memory",
            );
            assert!(rt; right, "in case {size}");
        }
    }
}
