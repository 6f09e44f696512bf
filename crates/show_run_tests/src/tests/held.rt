//! Held lists.

ghost use Rattle.std.specs.Prelude.{◌<◌, ◌≤◌};

use krl_entries::Revocations;
use serial_set::Spans;
use std::alloc::{AllocError, Global};
use std::process::Abort;

/// An entry. An empty authority means all authorities.
#[derive(Clone, Copy)]
pub enum Said<'a> {
    Serials(&'a [u8], u64, u64),
    Id(&'a [u8], &'a [u8]),
    Key(&'a [u8]),
    Sha1(u8),
    Sha256(u8),
}

// Adds an entry. Serials are at least 1, and in order.
fn add<S: Spans>(r: &mut Revocations<S>, said: Said<'_>) -> Result<(), AllocError> {
    match said {
        Said::Serials(authority, lo, hi) => {
            let lo = lo.max(1);
            if lo <= hi {
                r.add_serials(authority, lo, hi)?;
            }
            Ok(())
        }
        Said::Id(authority, id) => r.add_id(authority, id),
        Said::Key(blob) => r.add_key(blob),
        Said::Sha1(byte) => r.add_sha1(&[byte; 20]),
        Said::Sha256(byte) => r.add_sha256(&[byte; 32]),
    }
}

/// The revocations with all these entries, with ample memory.
pub fn held_of<S: Spans>(rt: &impl Abort, alloc: Global, all: &[Said<'_>]) -> Revocations<S> {
    let mut held: Revocations<S> = Revocations::new(alloc);
    for said in all {
        add(&mut held, *said).expect(rt, "there is memory");
    }
    held
}

/// Whether two lists hold the same, in the same order.
pub fn are_equal<S: Spans>(one: &Revocations<S>, other: &Revocations<S>) -> bool {
    let mut others = other.iter_authorities();
    for listed in one.iter_authorities() {
        let Some(twin) = others.next() else {
            return false;
        };
        if listed.authority() != twin.authority()
            || !have_equal_spans(listed.spans(), twin.spans())
            || !listed.iter_ids().eq(twin.iter_ids())
        {
            return false;
        }
    }
    others.next().is_none()
        && one.iter_keys().eq(other.iter_keys())
        && one.iter_sha1s().eq(other.iter_sha1s())
        && one.iter_sha256s().eq(other.iter_sha256s())
}

// Whether two sets have the same spans.
fn have_equal_spans<S: Spans>(one: &S, other: &S) -> bool {
    if one.len() != other.len() {
        return false;
    }
    for at in 0..one.len().min(other.len()) {
        if one.get(at) != other.get(at) {
            return false;
        }
    }
    true
}
