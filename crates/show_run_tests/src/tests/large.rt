//! Differences of lists of many entries, past each page and piece of their sets.

ghost use Rattle.std.specs.Prelude.{◌<◌};

use crate::tests::held::are_equal;
use krl_entries::Revocations;
use list_diff::difference;
use span_sets::Held;
use std::alloc::{AllocError, Global};

const COUNT: u64 = 3000;

// The blobs of keys and the key IDs with these numbers.
fn text(number: u64) -> [u8; 8] {
    number.to_be_bytes()
}

// Every number that is a multiple of `step`, as a serial number with one after it, a key ID, a key
// and hashes.
fn multiples(alloc: Global, step: u64) -> Result<Revocations<Held>, AllocError>
    requires { 0 < step }
{
    let mut held: Revocations<Held> = Revocations::new(alloc);
    for number in 1..COUNT {
        if number % step == 0 {
            held.add_serials(b"A", 4 * number, 4 * number + 1)?;
            held.add_id(b"A", &text(number))?;
            held.add_key(&text(number))?;
            held.add_sha1(&hash_of(number))?;
            held.add_sha256(&hash_of(number))?;
        }
    }
    Ok(held)
}

// A hash that begins with a number.
fn hash_of<const N: usize>(number: u64) -> [u8; N] {
    let mut hash = [0; N];
    for (to, from) in hash.iter_mut().zip(text(number)) {
        *to = from;
    }
    hash
}

#[test]
fn numbers_that_are_no_multiples(rt: HostRuntime) {
    let every = multiples(rt.alloc(), 1).expect(&rt, "there is memory");
    let third = multiples(rt.alloc(), 3).expect(&rt, "there is memory");
    let lost = difference(rt.alloc(), &third, &every).expect(&rt, "there is memory");
    assert!(rt; lost.held() == 2000 && lost.keys() == 2000);
    assert!(rt; lost.sha1s() == 2000 && lost.sha256s() == 2000);
    assert!(rt; !lost.has_serial(b"A", 12) && lost.has_serial(b"A", 17));
    assert!(rt; !lost.has_id(b"A", &text(3)) && lost.has_id(b"A", &text(4)));
    let none = difference(rt.alloc(), &every, &third).expect(&rt, "there is memory");
    assert!(rt; none.is_nothing());
    let left = difference(rt.alloc(), &lost, &every).expect(&rt, "there is memory");
    assert!(rt; are_equal(&left, &third));
}
