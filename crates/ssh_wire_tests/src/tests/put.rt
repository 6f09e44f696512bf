//! Fields that are appended to the content of a vector.

use ssh_wire::{put_byte, put_mpint, put_string, put_u32, put_u64};
use std::alloc::AllocError;

// A field to put.
#[derive(Clone, Copy)]
enum Field {
    Byte(u8),
    Number(u32),
    Long(u64),
    Text(&'static [u8; 7]),
}

// Puts a field.
fn put(out: &mut Vec<u8>, field: Field) -> Result<(), AllocError> {
    match field {
        Field::Byte(byte) => put_byte(out, byte),
        Field::Number(n) => put_u32(out, n),
        Field::Long(n) => put_u64(out, n),
        Field::Text(text) => put_string(out, text),
    }
}

// Fields that are put one after another, and the bytes after each.
const PUTS: [(Field, &[u8]); 4] = [
    (Field::Byte(9), b"\x09"),
    (Field::Number(699_921_578), b"\x09\x29\xb7\xf4\xaa"),
    (
        Field::Text(b"testing"),
        b"\x09\x29\xb7\xf4\xaa\0\0\0\x07testing",
    ),
    (
        Field::Long(0x0102_0304_0506_0708),
        b"\x09\x29\xb7\xf4\xaa\0\0\0\x07testing\x01\x02\x03\x04\x05\x06\x07\x08",
    ),
];

#[test]
fn puts_append_to_what_stands(rt: HostRuntime) {
    let mut out = Vec::new(rt.alloc());
    for (field, bytes) in &PUTS {
        put(&mut out, *field).expect(&rt, "there is memory");
        assert!(rt; out.as_slice() == *bytes);
    }
}

#[test]
#[tactic(auto, using(ssh_wire::proofs::Magnitudes::complement_fits))]
fn a_zero_byte_leads_where_the_top_bit_is_set(rt: HostRuntime) {
    let rows: [(&[u8], &[u8]); 4] = [
        (b"", b"\0\0\0\0"),
        (b"\x80", b"\0\0\0\x02\0\x80"),
        (b"\x7f", b"\0\0\0\x01\x7f"),
        (
            b"\x09\xa3\x78\xf9\xb2\xe3\x32\xa7",
            b"\0\0\0\x08\x09\xa3\x78\xf9\xb2\xe3\x32\xa7",
        ),
    ];
    for (magnitude, spelled) in rows {
        let mut out = Vec::new(rt.alloc());
        put_mpint(&mut out, magnitude).expect(&rt, "there is memory");
        assert!(rt; out.as_slice() == spelled);
    }
}

// Puts fields of 310,000 bytes.
fn put_many(out: &mut Vec<u8>) -> Result<(), AllocError> {
    for _ in 0..70_000_u32 {
        put_byte(out, 7)?;
    }
    for _ in 0..20_000_u32 {
        put(out, Field::Number(7))?;
        put(out, Field::Long(7))?;
    }
    Ok(())
}

#[test]
fn long_vectors_grow(rt: HostRuntime) {
    let mut out = Vec::new(rt.alloc());
    put_many(&mut out).expect(&rt, "there is memory");
    assert!(rt; out.len() == 310_000);
}

// Puts a string of these bytes, and a number with this magnitude.
#[tactic(auto, using(ssh_wire::proofs::Magnitudes::complement_fits))]
fn put_long(out: &mut Vec<u8>, bytes: &[u8]) -> Result<(), AllocError> {
    let [1..=255, ..] = bytes else {
        return Ok(());
    };
    if bytes.len() > 100_000 {
        return Ok(());
    }
    put_string(out, bytes)?;
    put_mpint(out, bytes)
}

#[test]
fn long_strings_and_numbers_are_put(rt: HostRuntime) {
    let bytes = vec![in rt.alloc(); 0x81; 70_000].expect(&rt, "there is memory");
    let mut out = Vec::new(rt.alloc());
    put_long(&mut out, &bytes).expect(&rt, "there is memory");
    assert!(rt; out.len() == 140_009);
    assert!(rt; out.starts_with(b"\0\x01\x11\x70\x81"));
    assert!(rt; out.get(70_004..70_010) == Some(b"\0\x01\x11\x71\0\x81".as_slice()));
}
