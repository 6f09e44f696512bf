//! Specification files, and plain lists. If an allocation fails, exactly the lines of a
//! specification file before it are added.

use crate::tests::answered::{answered, ran_out};
use crate::tests::holding::size;
use krl_core::Revocations;
use krl_spec::{SpecCause, Under, read_spec};
use plain_list::{PlainFault, read_plain};
use span_sets::Held;
use std::alloc::AllocError;
use test_fixtures::{CERT_LINE, GITHUB_LINE, GITHUB_PRINT, OTHER_LINE, joined};

// Eight lines, each of which names one more entry.
const LINES: [&[u8]; 14] = [
    b"serial: 0x10-020\n",
    b"id: a\n",
    b"key: ",
    GITHUB_LINE,
    b"\nsha1: ",
    GITHUB_LINE,
    b"\nhash: ",
    GITHUB_PRINT,
    b"\nsha256: ",
    OTHER_LINE,
    b"\n",
    CERT_LINE,
    b"\n",
    b"serial: 20-30",
];

#[test]
fn a_file(rt: HostRuntime) {
    let Some(text) = answered(&rt, joined(rt.alloc(), &LINES), AllocError) else {
        return;
    };
    let mut held: Revocations<Held> = Revocations::new(rt.alloc());
    match read_spec(rt.alloc(), &mut held, Under::All, &text) {
        Ok(()) => assert!(rt; size(&held) == 8),
        Err(fault) => {
            assert!(rt; fault.cause == SpecCause::NoMemory);
            assert!(rt; size(&held).saturating_add(1) == fault.line as u128);
            ran_out(&rt);
        }
    }
}

#[test]
fn a_plain_list(rt: HostRuntime) {
    let lines: [&[u8]; 6] = [CERT_LINE, b"\n\n", OTHER_LINE, b" c\n# ", OTHER_LINE, b"\n"];
    let Some(text) = answered(&rt, joined(rt.alloc(), &lines), AllocError) else {
        return;
    };
    let found = read_plain::<Held>(rt.alloc(), &text);
    if let Some(revoked) = answered(&rt, found, PlainFault::NoMemory) {
        assert!(rt; size(&revoked) == 2);
    }
}
