//! The arguments of the calls, whose allocations may fail too.

use crate::tests::answered::answered;
use key_text::{LineFault, read_line};
use ssh_wire::Bytes;
use std::alloc::AllocError;
use std::process::Abort;

/// The SHA-256 of the published key.
pub const SHA256: [u8; 32] = [
    0xf8, 0x38, 0x98, 0xdf, 0x0b, 0xef, 0x57, 0xa4, 0xee, 0x24, 0x98, 0x5b, 0xa5, 0x98, 0xac, 0x17,
    0xfc, 0xcb, 0x0c, 0x0d, 0x33, 0x3c, 0xc4, 0xaf, 0x1d, 0xd9, 0x2b, 0xe1, 0x4b, 0xc2, 0x3a, 0xa5,
];

/// The list with these bytes after its header.
pub fn list_of(rt: &(impl AllocGlobal + Abort + Print), sections: &[u8]) -> Option<Vec<u8>> {
    answered(rt, test_fixtures::list_of(rt.alloc(), sections), AllocError)
}

/// The blob of a line.
pub fn blob_of(rt: &(impl AllocGlobal + Abort + Print), line: &[u8]) -> Option<Bytes> {
    match answered(rt, read_line(rt.alloc(), line), LineFault::NoMemory) {
        Some(line) => Some(line.blob),
        None => None,
    }
}
