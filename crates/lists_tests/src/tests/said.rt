//! Entries of a list, and subjects of queries.

ghost use Rattle.std.specs.Prelude.{◌≡◌, ◌<◌, ◌≤◌};

use krl_core::Revocations;
use serial_set::Spans;
use span_sets::Held;
use ssh_cert::{CertNames, Subject};
use ssh_wire::Bytes;
use std::alloc::{AllocError, Global};
use std::process::Abort;

/// The blob of a key. It need not be that of a real key, since blobs are only compared and hashed.
pub const G: &[u8] = b"G, the key of a certificate";

/// The blob of an authority's key.
pub const A: &[u8] = b"A, an authority";

/// The blob of another authority's key.
pub const B: &[u8] = b"B, another authority";

/// Empty bytes mean all authorities.
pub const ALL: &[u8] = b"";

/// An entry. An empty authority means all authorities.
#[derive(Clone, Copy)]
pub enum Said<'a> {
    Serials(&'a [u8], u64, u64),
    Id(&'a [u8], &'a [u8]),
    Key(&'a [u8]),
    Sha1(&'a [u8]),
    Sha256(&'a [u8]),
}

// The bytes as an array, or zeros if the length differs.
fn array_of<const N: usize>(bytes: &[u8]) -> [u8; N] {
    let mut array = [0; N];
    if bytes.len() == N {
        array.copy_from_slice(bytes);
    }
    array
}

// Adds an entry. Serials are at least 1, and in order.
fn add<S: Spans>(r: &mut Revocations<S>, said: Said<'_>) -> Result<(), AllocError> {
    match said {
        Said::Serials(authority, lo, hi) => {
            let lo = lo.max(1);
            if lo <= hi {
                r.add_serials(authority, lo, hi)?;
            }
            Ok(())
        }
        Said::Id(authority, id) => r.add_id(authority, id),
        Said::Key(blob) => r.add_key(blob),
        Said::Sha1(hash) => r.add_sha1(&array_of(hash)),
        Said::Sha256(hash) => r.add_sha256(&array_of(hash)),
    }
}

/// Adds an entry, with ample memory.
pub fn hold<S: Spans>(rt: &impl Abort, r: &mut Revocations<S>, said: Said<'_>) {
    add(r, said).expect(rt, "there is memory");
}

/// The revocations with all these entries.
pub fn held_of<S: Spans>(rt: &impl Abort, alloc: Global, all: &[Said<'_>]) -> Revocations<S> {
    let mut held: Revocations<S> = Revocations::new(alloc);
    for said in all {
        hold(rt, &mut held, *said);
    }
    held
}

/// The revocations with runs of serials of all authorities.
pub fn held_of_runs(rt: &impl Abort, alloc: Global, runs: &[(u64, u64)]) -> Revocations<Held> {
    let mut held: Revocations<Held> = Revocations::new(alloc);
    for (lo, hi) in runs {
        hold(rt, &mut held, Said::Serials(ALL, *lo, *hi));
    }
    held
}

/// The authority, the serial and the key ID of a certificate of `G`; none means `G` itself.
pub type About<'a> = Option<(&'a [u8], u64, &'a [u8])>;

/// The subject of a query.
pub fn subject_of<'a>(rt: &impl Abort, alloc: Global, about: About<'a>) -> Subject<'a> {
    let blob = Vec::from_slice(alloc, G).expect(rt, "there is memory");
    let mut subject = Subject {
        plain: Bytes::from_vec(blob),
        cert: None,
    };
    if let Some((authority, serial, key_id)) = about {
        subject.cert = Some(CertNames {
            serial,
            key_id,
            authority,
        });
    }
    subject
}

/// Whether the revocations revoke it.
pub fn revokes<S: Spans>(
    rt: &impl Abort,
    alloc: Global,
    held: &Revocations<S>,
    about: About<'_>,
) -> bool {
    held.query(&subject_of(rt, alloc, about))
}
