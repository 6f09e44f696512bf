//! Vectors, which are unchanged if a put fails.

use crate::tests::answered::ran_out;
use line_pieces::{Escaped, put};
use ssh_wire::{put_byte, put_mpint, put_string, put_u32, put_u64};
use std::alloc::AllocError;
use std::test::*;

// Puts one field of each kind.
#[tactic(auto, using(ssh_wire::proofs::Magnitudes::complement_fits))]
fn put_field(out: &mut Vec<u8>, sort: u32) -> Result<(), AllocError> {
    match sort % 5 {
        0 => put_byte(out, 7),
        1 => put_u32(out, 7),
        2 => put_u64(out, 7),
        3 => put_string(out, b"seven"),
        _ => put_mpint(out, &[0x80]),
    }
}

#[test]
fn a_vector(rt: HostRuntime) -> Result<(), Fail> {
    let mut out = Vec::new(rt.alloc());
    for sort in 0..500 {
        let length = out.len();
        if put_field(&mut out, sort).is_err() {
            assert_eq!(rt; out.len(), length);
            ran_out(&rt);
            put_field(&mut out, sort)?;
        }
    }
    // a byte, 4, 8, a string of 5 and an mpint of 2 bytes
    assert_eq!(rt; out.len(), 100 * (1 + 4 + 8 + 9 + 6));
    Ok(())
}

#[test]
fn a_line_of_pieces(rt: HostRuntime) -> Result<(), Fail> {
    let mut line = Vec::new(rt.alloc());
    for number in 0..500u64 {
        if put!(&mut line; b"seven", Escaped(b": "), number % 10, b"\n").is_err() {
            ran_out(&rt);
            return Ok(());
        }
    }
    assert_eq!(rt; line.len(), 500 * (5 + 2 + 1 + 1));
    Ok(())
}
