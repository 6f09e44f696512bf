//! A string whose length is known only at its end.

use krl_plan::{begin_string, end_string};
use std::process::Abort;

#[test]
fn a_string_gets_its_length_at_its_end(rt: HostRuntime) {
    let alloc = rt.alloc();
    let mut out = Vec::new(alloc);
    out.extend_from_slice(b"before")
        .expect(&rt, "there is memory");
    let at = begin_string(&mut out, 0x23).expect(&rt, "there is memory");
    assert!(rt; at == 7);
    assert!(rt; out.as_slice() == b"before\x23\0\0\0\0".as_slice());
    out.extend_from_slice(b"testing")
        .expect(&rt, "there is memory");
    end_string(&mut out, at);
    // As RFC 4251 section 5 spells it.
    assert!(rt; out.as_slice() == b"before\x23\0\0\0\x07testing".as_slice());
}
