//! Writing lists.

use crate::tests::answered::answered;
use crate::tests::holding::{Counter, held, one_of_each};
use byte_streams::ToWrite;
use krl_core::{Header, Revocations};
use krl_writer::{TextFault, WriteFault, krl_text, write_krl};
use span_sets::Held;
use ssh_wire::Bytes;
use std::alloc::{AllocError, Global};
use test_fixtures::{HEADER, KEY_SECTION, SHA256_SECTION, joined};

// A header of version 1 without a comment.
fn header(alloc: Global) -> Header {
    Header {
        version: 1,
        date: 0,
        comment: Bytes::from_vec(Vec::new(alloc)),
    }
}

// Serial 5 and key ID `a` of all authorities.
const FIVE_AND_A: &[u8] = b"\x01\0\0\0\x1f\0\0\0\0\0\0\0\0\x20\0\0\0\x08\0\0\0\0\0\0\0\x05\
\x23\0\0\0\x05\0\0\0\x01a";

#[test]
fn a_text(rt: HostRuntime) {
    let expected = joined(
        rt.alloc(),
        &[&HEADER, FIVE_AND_A, KEY_SECTION, SHA256_SECTION],
    );
    let Some(expected) = answered(&rt, expected, AllocError) else {
        return;
    };
    let Some(held) = one_of_each(&rt) else {
        return;
    };
    let text = krl_text(rt.alloc(), &header(rt.alloc()), &held);
    if let Some(text) = answered(&rt, text, TextFault::NoMemory) {
        assert!(rt; text.as_slice() == expected.as_slice());
    }
}

// Writes the list.
fn write(alloc: Global, held: &Revocations<Held>, counter: &mut Counter) -> Result<(), WriteFault> {
    write_krl(alloc, &header(alloc), held, &mut ToWrite::new(counter))
}

#[test]
fn a_list_goes_out_whole_or_not_at_all(rt: HostRuntime) {
    let Some(held) = held(&rt) else {
        return;
    };
    let mut counter = Counter { count: 0 };
    let written = write(rt.alloc(), &held, &mut counter);
    match answered(&rt, written, WriteFault::NoMemory) {
        Some(()) => assert!(rt; counter.count > 40_000),
        None => assert!(rt; counter.count == 0),
    }
}
