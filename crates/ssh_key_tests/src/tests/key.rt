//! Keys read from blobs, and the faults of blobs.

use crate::tests::parts::{KEYS, has_fault};
use ssh_key::{KeyFault, Kind, PublicKey, plain_blob, read_fields, read_key};
use ssh_wire::{Cursor, WireFault};
use std::alloc::{AllocError, Global};
use test_fixtures::{GITHUB, PUBLISHED, joined, strings};

// Whether the key has this kind and size and these public fields, and gives this blob.
fn is_that(
    alloc: Global,
    key: &PublicKey<'_>,
    (kind, bits): (Kind, u32),
    fields: &[u8],
    blob: &[u8],
) -> Result<bool, AllocError> {
    let made = plain_blob(alloc, key)?;
    Ok(
        key.kind() == kind
            && key.short_name() == kind.short_name()
            && key.bits() == bits
            && key.public_fields() == fields
            && made.as_slice() == blob,
    )
}

// Whether the blob of these strings is that key, and so are its fields alone, followed by more
// bytes.
fn reads(alloc: Global, kind: Kind, list: &[&[u8]], bits: u32) -> Result<bool, AllocError> {
    let blob = strings(alloc, list)?;
    let fields = strings(alloc, list.get(1..).unwrap_or(&[]))?;
    let Ok(key) = read_key(&blob) else {
        return Ok(false);
    };
    let more = joined(alloc, &[&fields, b"more"])?;
    let mut cursor = Cursor::new(&more);
    let Ok(again) = read_fields(kind, &mut cursor) else {
        return Ok(false);
    };
    let are = is_that(alloc, &key, (kind, bits), &fields, &blob)?
        && is_that(alloc, &again, (kind, bits), &fields, &blob)?;
    Ok(are && cursor.rest() == b"more".as_slice())
}

#[test]
fn keys_of_each_kind(rt: HostRuntime) {
    for (i, (kind, list, bits)) in KEYS.iter().enumerate() {
        let right = reads(rt.alloc(), *kind, *list, *bits).expect(&rt, "there is memory");
        assert!(rt; right, "in case {i}");
    }
}

const SHORT: KeyFault = KeyFault::Wire(WireFault::Short);

const NEGATIVE: KeyFault = KeyFault::Wire(WireFault::Negative);

const NOT_SHORTEST: KeyFault = KeyFault::Wire(WireFault::NotShortest);

// The strings of a blob, and its fault.
const REFUSED: [(&[&[u8]], KeyFault); 11] = [
    (&[b"ssh-rsa", &[3], &[0, 0x7f]], NOT_SHORTEST),
    (&[b"ssh-rsa", &[3], &[0xff]], NEGATIVE),
    (&[b"ssh-rsa", &[], &[0, 0xff]], KeyFault::Number),
    (&[b"ssh-ed25519", &[7; 31]], KeyFault::Length),
    // an application with a zero byte at its end, in its middle and alone
    (
        &[b"sk-ssh-ed25519@openssh.com", &PUBLISHED, b"ssh:\0"],
        KeyFault::Length,
    ),
    (
        &[b"sk-ssh-ed25519@openssh.com", &PUBLISHED, b"ss\0h:"],
        KeyFault::Length,
    ),
    (
        &[b"sk-ssh-ed25519@openssh.com", &PUBLISHED, b"\0"],
        KeyFault::Length,
    ),
    (
        &[b"sk-ssh-ed25519@openssh.com", &PUBLISHED, b"\0", b""],
        KeyFault::Length,
    ),
    (
        &[b"ssh-ed25519-cert-v01@openssh.com", &PUBLISHED],
        KeyFault::UnknownType,
    ),
    (
        &[b"ecdsa-sha2-nistp256", b"nistp384", &[4; 65]],
        KeyFault::Curve,
    ),
    (
        &[b"ecdsa-sha2-nistp256", b"nistp256", &[2; 65]],
        KeyFault::Point,
    ),
];

#[test]
fn refused(rt: HostRuntime) {
    for (i, (list, fault)) in REFUSED.iter().enumerate() {
        let blob = strings(rt.alloc(), *list).expect(&rt, "there is memory");
        assert!(rt; has_fault(&blob, *fault), "in case {i}");
    }
    let longer = joined(rt.alloc(), &[GITHUB, &[0]]).expect(&rt, "there is memory");
    assert!(rt; has_fault(&longer, KeyFault::Trailing));
    for n in 0..51 {
        assert!(rt; has_fault(&GITHUB[..n], SHORT), "in case {n}");
    }
}

#[test]
fn longest_blob(rt: HostRuntime) {
    let alloc = rt.alloc();
    let application = vec![in alloc; b'x'; 65_466].expect(&rt, "there is memory");
    let list: [&[u8]; 3] = [b"sk-ssh-ed25519@openssh.com", &PUBLISHED, &application];
    let mut blob = strings(alloc, &list).expect(&rt, "there is memory");
    assert!(rt; blob.len() == 65_536 && read_key(&blob).is_ok());
    blob.push(0).expect(&rt, "there is memory");
    assert!(rt; has_fault(&blob, KeyFault::TooLong));
}
