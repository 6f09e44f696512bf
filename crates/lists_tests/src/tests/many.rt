//! Large numbers of entries, stored, written and read with ample memory.

ghost use Rattle.std.specs.Prelude.{◌≤◌};

use crate::tests::lists::{list_of, read_from, spans_from, text_of};
use crate::tests::said::{ALL, Said, hold};
use krl_core::{Authorities, Listed, Revocations};
use serial_set::Spans;
use span_sets::Held;
use std::alloc::{AllocError, Global};
use std::process::Abort;
use test_fixtures::{joined, strings};

// The number of entries of each kind: enough for a tree of five levels.
const COUNT: usize = 40_000;

// The average length of a name in bytes.
const NAME: usize = 44;

// Short and long by turns.
fn size_of_name(number: u64) -> usize
    ensures { result ≤ 80 }
{
    if number & 1 == 0 { 8 } else { 80 }
}

// Adds a key, its hashes, an authority with a serial and a key ID, and a key ID of all authorities,
// all made from one number.
fn hold_each(rt: &impl Abort, held: &mut Revocations<Held>, number: u64) {
    let mut hash = [0; 80];
    hash[..8].copy_from_slice(&number.to_be_bytes());
    let name = &hash[..size_of_name(number)];
    hold(rt, held, Said::Key(name));
    hold(rt, held, Said::Sha1(&hash[..20]));
    hold(rt, held, Said::Sha256(&hash[..32]));
    hold(rt, held, Said::Serials(name, 5, 5));
    hold(rt, held, Said::Id(name, name));
    hold(rt, held, Said::Id(ALL, name));
}

// The entries of `COUNT` numbers, in random order.
fn held_by_many(rt: &impl Abort, alloc: Global) -> Revocations<Held> {
    let mut held: Revocations<Held> = Revocations::new(alloc);
    for number in 0..COUNT as u64 {
        hold_each(rt, &mut held, number.wrapping_mul(0x9e37_79b9_7f4a_7c15));
    }
    held
}

// The number of keys and hashes.
fn counts(held: &Revocations<Held>) -> [usize; 3] {
    [held.keys(), held.sha1s(), held.sha256s()]
}

// The number of key IDs and spans of an authority.
fn of_authority(listed: &Listed<'_, Held>) -> (usize, usize) {
    (listed.ids(), listed.spans().len())
}

// The number of key IDs and spans of the next authority of an iterator.
fn next(iter: &mut Authorities<'_, Held>) -> Option<(usize, usize)> {
    let listed = iter.next()?;
    Some(of_authority(&listed))
}

// All authorities have the key IDs, and each other authority has a key ID and a serial.
fn are_listed(rt: &impl Abort, held: &Revocations<Held>) {
    let mut iter = held.iter_authorities();
    assert!(rt; next(&mut iter) == Some((COUNT, 0)));
    for _ in 0..COUNT {
        assert!(rt; next(&mut iter) == Some((1, 1)));
    }
    assert!(rt; next(&mut iter).is_none());
}

// The text of the stored entries has this number of bytes, and is read back.
fn has_length(rt: &impl Abort, alloc: Global, held: &Revocations<Held>, length: usize) {
    let text = text_of(rt, alloc, held);
    assert!(rt; text.len() == length);
    let (_, held) = read_from::<Held, &[u8]>(alloc, &text).expect(rt, "the list is spelled");
    assert!(rt; counts(&held) == [COUNT; 3]);
    assert!(rt; text_of(rt, alloc, &held).as_slice() == text.as_slice());
}

#[test]
fn many_of_each_sort(rt: HostRuntime) {
    let held = held_by_many(&rt, rt.alloc());
    assert!(rt; counts(&held) == [COUNT; 3]);
    are_listed(&rt, &held);
    // the header, the key IDs of all authorities and the sections of the others, and the keys, the
    // SHA-1s and the SHA-256s; a name has 44 bytes on average
    let others = 5 + (4 + NAME) + 4 + 13 + (5 + 4 + NAME);
    let keys_and_hashes = 15 + (4 + NAME + 24 + 36) * COUNT;
    let length = 44 + (18 + (4 + NAME) * COUNT) + others * COUNT + keys_and_hashes;
    has_length(&rt, rt.alloc(), &held, length);
}

// The section of all authorities with `count` odd serials, in random order.
fn in_no_order(alloc: Global, count: u64) -> Result<Vec<u8>, AllocError> {
    let mut serials = Vec::new(alloc);
    for number in 0..count {
        // the multiplier has no divisor in common with the count, so each serial occurs once
        let place = number.wrapping_mul(7_919).checked_rem(count).unwrap_or(0);
        let serial = place.wrapping_mul(2).wrapping_add(1);
        serials.extend_from_slice(&serial.to_be_bytes())?;
    }
    let subsection = strings(alloc, &[&serials])?;
    let content = joined(alloc, &[b"\0\0\0\0\0\0\0\0\x20", &subsection])?;
    let content = strings(alloc, &[&content])?;
    joined(alloc, &[b"\x01", &content])
}

#[test]
fn many_serials_in_no_order(rt: HostRuntime) {
    let sections = in_no_order(rt.alloc(), 100_000).expect(&rt, "there is memory");
    let list = list_of(&rt, rt.alloc(), &sections);
    assert!(rt; spans_from::<Held, &[u8]>(rt.alloc(), &list) == Ok(100_000));
}
