//! Making, reading and writing lists. These functions have no contracts on purpose: a test only
//! compares values, and each known fact makes its proof more expensive.

use byte_streams::FromRead;
use krl_core::{Header, KrlFault, Revocations, read_krl};
use krl_writer::krl_text;
use serial_set::Spans;
use span_sets::Held;
use ssh_wire::Bytes;
use std::alloc::Global;
use std::io::Read;
use std::process::Abort;

/// The list with these bytes after its header.
pub fn list_of(rt: &impl Abort, alloc: Global, sections: &[u8]) -> Vec<u8> {
    test_fixtures::list_of(alloc, sections).expect(rt, "there is memory")
}

/// The result of reading a list.
pub fn read_from<S: Spans, R: Read + Drop>(
    alloc: Global,
    reader: R,
) -> Result<(Header, Revocations<S>), KrlFault> {
    let (read, _) = read_krl::<S, FromRead<R>>(alloc, FromRead::new(reader));
    read
}

/// The number of spans of a list.
pub fn spans_from<S: Spans, R: Read + Drop>(alloc: Global, reader: R) -> Result<u128, KrlFault> {
    match read_from::<S, R>(alloc, reader) {
        Ok((_, held)) => Ok(held.held()),
        Err(fault) => Err(fault),
    }
}

/// A header of 44 bytes: version 1, date 0, no comment.
pub fn header(alloc: Global) -> Header {
    Header {
        version: 1,
        date: 0,
        comment: Bytes::from_vec(Vec::new(alloc)),
    }
}

/// The text of the stored revocations, with that header.
pub fn text_of(rt: &impl Abort, alloc: Global, held: &Revocations<Held>) -> Vec<u8> {
    krl_text(alloc, &header(alloc), held).expect(rt, "what is held has a text")
}
