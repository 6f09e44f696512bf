//! Readers that are interrupted, give few bytes, or fail.

use byte_streams::{Failed, FromRead, Source};
use test_fixtures::{Giver, Then};

// Reads into four bytes, from a reader that gives two at a call after some interruptions.
struct Row<'a> {
    bytes: &'a [u8],
    interruptions: usize,
    then: Then,
    reads: &'a [Result<usize, Failed>],
}

const ROWS: [Row<'static>; 4] = [
    // Short reads, and the end.
    Row {
        bytes: b"abc",
        interruptions: 0,
        then: Then::Ends,
        reads: &[Ok(2), Ok(1), Ok(0), Ok(0)],
    },
    // A thousand interruptions in all are ignored; one more is a permanent failure.
    Row {
        bytes: b"abc",
        interruptions: 1000,
        then: Then::Ends,
        reads: &[Ok(2), Ok(1), Ok(0)],
    },
    Row {
        bytes: b"abc",
        interruptions: 1001,
        then: Then::Ends,
        reads: &[Err(Failed), Err(Failed), Err(Failed)],
    },
    // Any other error is a failure.
    Row {
        bytes: b"ab",
        interruptions: 0,
        then: Then::Fails,
        reads: &[Ok(2), Err(Failed), Err(Failed)],
    },
];

// Whether each read has its result, and the reader has failed exactly if that is an error.
fn are_answered(row: &Row<'_>) -> bool {
    let mut giver = Giver::new(row.bytes, 2);
    giver.interruptions = row.interruptions;
    giver.then = row.then;
    let mut reader = FromRead::new(giver);
    let mut buffer = [0; 4];
    for answer in row.reads {
        if reader.read(&mut buffer) != *answer || reader.failed() != answer.is_err() {
            return false;
        }
    }
    true
}

#[test]
fn reads_are_answered_so(rt: HostRuntime) {
    for (i, row) in ROWS.iter().enumerate() {
        assert!(rt; are_answered(row), "in case {i}");
    }
}
