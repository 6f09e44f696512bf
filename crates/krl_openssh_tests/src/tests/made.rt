//! Lists, of their parts.

use std::alloc::Global;
use std::process::Abort;
use test_fixtures::{HEADER, joined, strings};

/// A section or a subsection of this type with these bytes.
pub fn section(rt: &impl Abort, alloc: Global, type_byte: u8, content: &[u8]) -> Vec<u8> {
    let content = strings(alloc, &[content]).expect(rt, "there is memory");
    joined(alloc, &[&[type_byte], &content]).expect(rt, "there is memory")
}

/// A list of one section of certificates, with one subsection of this type and these bytes.
pub fn certificates(
    rt: &impl Abort,
    alloc: Global,
    authority: &[u8],
    type_byte: u8,
    content: &[u8],
) -> Vec<u8> {
    let front = strings(alloc, &[authority, b""]).expect(rt, "there is memory");
    let subsection = section(rt, alloc, type_byte, content);
    let content = joined(alloc, &[&front, &subsection]).expect(rt, "there is memory");
    let section = section(rt, alloc, 1, &content);
    joined(alloc, &[&HEADER, &section]).expect(rt, "there is memory")
}
