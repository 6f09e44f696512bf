//! The callers of the pages of `krl_openssh`, `openssh_keys` and `curve_points`.

use byte_streams::FromRead;
use curve_points::{Curve, is_on_curve};
use krl_core::read_krl;
use krl_openssh::{Incomparable, first_difference, first_incomparable};
use openssh_keys::{Judgement, judge};
use span_sets::Held;
use ssh_key::read_key;
use std::alloc::Global;
use std::process::Abort;
use test_fixtures::{FIVE, GITHUB, HEADER, PUBLISHED, joined, list_of, strings};

/// Whether OpenSSH reads a list too, and as the same names.
fn is_read_alike(alloc: Global, list: &[u8]) -> bool {
    let (read, _reader) = read_krl::<Held, _>(alloc, FromRead::new(list));
    match read {
        Ok(_) => first_difference(list).is_none(),
        Err(_) => false,
    }
}

#[test]
fn lists_are_read_alike(rt: HostRuntime) {
    let bytes = list_of(rt.alloc(), FIVE).expect(&rt, "there is memory");
    assert!(rt; is_read_alike(rt.alloc(), &bytes) && !is_read_alike(rt.alloc(), b"x"));
}

// Why a list with one section, under this authority and with these subsections, cannot be asked by
// comparing bytes.
fn why_not_asked(
    rt: &impl Abort,
    alloc: Global,
    authority: &[u8],
    subsections: &[u8],
) -> Option<Incomparable> {
    let front = strings(alloc, &[authority, b""]).expect(rt, "there is memory");
    let content = joined(alloc, &[&front, subsections]).expect(rt, "there is memory");
    let section = strings(alloc, &[&content]).expect(rt, "there is memory");
    let list = joined(alloc, &[&HEADER, &[1], &section]).expect(rt, "there is memory");
    let (read, _reader) = read_krl::<Held, _>(alloc, FromRead::new(list.as_slice()));
    assert!(rt; read.is_ok());
    first_incomparable(&list)
}

#[test]
fn names_are_looked_at(rt: HostRuntime) {
    let alloc = rt.alloc();
    let key = strings(alloc, &[b"ssh-ed25519", &PUBLISHED]).expect(&rt, "there is memory");
    let odd = strings(alloc, &[b"ssh-ed25519\0", &PUBLISHED]).expect(&rt, "there is memory");
    let authority = Some(Incomparable::Authority);
    assert!(rt; why_not_asked(&rt, alloc, b"", b"").is_none());
    assert!(rt; why_not_asked(&rt, alloc, &key, b"").is_none());
    assert!(rt; why_not_asked(&rt, alloc, &key, WHOLE_IDS).is_none());
    assert!(rt; why_not_asked(&rt, alloc, &odd, b"") == authority);
    assert!(rt; why_not_asked(&rt, alloc, &odd, ODD_ID) == authority);
    assert!(rt; why_not_asked(&rt, alloc, &key, ODD_ID) == Some(Incomparable::KeyId));
}

// Serial numbers whose bytes are like those of a key ID with a zero byte, and key IDs.
const WHOLE_IDS: &[u8] = b"\x20\0\0\0\x08\0\0\0\x01\0\0\0\x05\x23\0\0\0\x09\0\0\0\x01a\0\0\0\0";

// The second key ID has a zero byte at its end.
const ODD_ID: &[u8] = b"\x23\0\0\0\x0b\0\0\0\x01a\0\0\0\x02b\0";

/// Whether OpenSSH accepts a list of an authority with this blob.
fn is_accepted(blob: &[u8]) -> bool {
    match read_key(blob) {
        Ok(key) => judge(&key) == Judgement::Accepted,
        Err(_) => false,
    }
}

/// Whether an uncompressed point is on P-256: 4, and two coordinates of 32 bytes.
fn is_on_p256(point: &[u8]) -> bool {
    match point {
        [4, coordinates @ ..] if coordinates.len() == 64 => {
            let (x, y) = coordinates.split_at(32);
            is_on_curve(Curve::P256, x, y)
        }
        _ => false,
    }
}

#[test]
fn keys_and_points(rt: HostRuntime) {
    assert!(rt; is_accepted(GITHUB) && !is_accepted(b"abc"));
    assert!(rt; !is_on_p256(&[4; 65]) && !is_on_p256(&[]));
}
