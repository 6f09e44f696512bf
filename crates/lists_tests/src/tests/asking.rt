//! The effect of each entry, for each representation of a set of serials.

use crate::tests::said::{A, ALL, About, B, G, Said, held_of, revokes};
use key_text::{sha1_of, sha256_of};
use serial_set::Spans;
use span_sets::Held;
use span_vec::SpanVec;
use std::alloc::Global;
use std::process::Abort;

// With this one entry, each subject is revoked or not, as its row says.
fn says<S: Spans>(rt: &impl Abort, alloc: Global, said: Said<'_>, rows: &[(About<'_>, bool)]) {
    let held = held_of::<S>(rt, alloc, &[said]);
    for (i, (about, expected)) in rows.iter().enumerate() {
        let found = revokes(rt, alloc, &held, *about);
        assert!(rt; found == *expected, "in case {i}");
    }
}

// An entry, and subjects with whether the entry revokes them.
type Case = (Said<'static>, &'static [(About<'static>, bool)]);

const CASES: [Case; 5] = [
    (
        Said::Serials(A, 7, 7),
        &[
            (Some((A, 7, b"a")), true),
            (Some((B, 7, b"a")), false),
            (Some((A, 6, b"a")), false),
            (None, false),
        ],
    ),
    (
        Said::Serials(ALL, 7, 7),
        &[
            (Some((A, 7, b"a")), true),
            (Some((B, 7, b"a")), true),
            (None, false),
        ],
    ),
    // Serial 0 is never revoked.
    (
        Said::Serials(ALL, 1, 3),
        &[
            (Some((A, 0, b"a")), false),
            (Some((A, 3, b"a")), true),
            (Some((A, 4, b"a")), false),
        ],
    ),
    (
        Said::Id(ALL, b"a"),
        &[(Some((A, 0, b"a")), true), (Some((A, 0, b"b")), false)],
    ),
    (
        Said::Id(B, b"a"),
        &[(Some((A, 0, b"a")), false), (Some((B, 0, b"a")), true)],
    ),
];

// The certificate authority's key revokes the certificates that it signed, but not their keys. The
// key revokes its certificates.
const OF_THE_AUTHORITY: [(About<'static>, bool); 3] = [
    (Some((A, 7, b"a")), true),
    (Some((B, 7, b"a")), false),
    (None, false),
];

const OF_THE_KEY: [(About<'static>, bool); 2] = [(Some((A, 7, b"a")), true), (None, true)];

// The effect of each entry, for one representation.
fn entries_revoke<S: Spans>(rt: &impl Abort, alloc: Global) {
    for (said, rows) in &CASES {
        says::<S>(rt, alloc, *said, *rows);
    }
    for said in [
        Said::Key(A),
        Said::Sha1(&sha1_of(A)),
        Said::Sha256(&sha256_of(A)),
    ] {
        says::<S>(rt, alloc, said, &OF_THE_AUTHORITY);
    }
    for said in [
        Said::Key(G),
        Said::Sha1(&sha1_of(G)),
        Said::Sha256(&sha256_of(G)),
    ] {
        says::<S>(rt, alloc, said, &OF_THE_KEY);
    }
}

#[test]
fn entries_revoke_over_each_set(rt: HostRuntime) {
    entries_revoke::<Held>(&rt, rt.alloc());
    entries_revoke::<SpanVec>(&rt, rt.alloc());
}
