//! The stored entries after additions: their number and their order.

use crate::tests::said::{A, ALL, B, Said, held_of, hold};
use krl_core::Revocations;
use serial_set::Spans;
use span_sets::Held;
use span_vec::SpanVec;
use std::alloc::Global;
use std::process::Abort;

// An entry, the number of spans after it was added, and the number of authorities.
const COUNTED: [(Said<'static>, u128, usize); 5] = [
    (Said::Serials(ALL, 5, 5), 1, 1),
    (Said::Serials(ALL, 7, 7), 2, 1),
    (Said::Serials(ALL, 6, 6), 1, 1),
    (Said::Serials(ALL, 8, u64::MAX), 1, 1),
    // Each authority has serials of its own.
    (Said::Serials(A, 1, u64::MAX), 2, 2),
];

// The spans are counted after each addition.
fn spans_are_counted<S: Spans>(rt: &impl Abort, alloc: Global) {
    let mut r: Revocations<S> = Revocations::new(alloc);
    for (i, (said, spans, authorities)) in COUNTED.iter().enumerate() {
        hold(rt, &mut r, *said);
        assert!(rt;
            r.held() == *spans && r.authorities() == *authorities,
            "in case {i}"
        );
    }
}

const OF_TWO: [Said<'static>; 4] = [
    Said::Serials(B, 1, 1),
    Said::Id(A, b"x"),
    Said::Id(ALL, b"y"),
    Said::Serials(B, 3, 3),
];

// The authorities are in the order of their bytes, all authorities first, both from an iterator and
// by index.
fn stand_in_order<S: Spans>(rt: &impl Abort, alloc: Global) {
    let r = held_of::<S>(rt, alloc, &OF_TWO);
    assert!(rt; r.authorities() == 3);
    let mut iter = r.iter_authorities();
    for (authority, ids, spans) in [(ALL, 1, 0), (A, 1, 0), (B, 0, 2)] {
        let listed = iter.next().expect(rt, "an authority is left");
        assert!(rt; listed.authority() == authority);
        assert!(rt; listed.ids() == ids && listed.spans().len() == spans);
    }
    assert!(rt; iter.next().is_none());
    let second = r.authority_at(1);
    assert!(rt; second.authority() == A && second.ids() == 1);
    assert!(rt; second.id_at(0) == b"x".as_slice());
    assert!(rt; second.iter_ids().next() == Some(b"x".as_slice()));
}

#[test]
fn spans_and_authorities_over_each_set(rt: HostRuntime) {
    spans_are_counted::<Held>(&rt, rt.alloc());
    spans_are_counted::<SpanVec>(&rt, rt.alloc());
    stand_in_order::<Held>(&rt, rt.alloc());
    stand_in_order::<SpanVec>(&rt, rt.alloc());
}

// Keys and hashes in random order, each twice.
const IN_NO_ORDER: [Said<'static>; 8] = [
    Said::Key(B),
    Said::Key(A),
    Said::Key(B),
    Said::Sha1(&[7; 20]),
    Said::Sha1(&[5; 20]),
    Said::Sha256(&[9; 32]),
    Said::Sha256(&[8; 32]),
    Said::Sha256(&[9; 32]),
];

#[test]
fn keys_and_hashes_stand_in_order(rt: HostRuntime) {
    let r = held_of::<Held>(&rt, rt.alloc(), &IN_NO_ORDER);
    assert!(rt; r.keys() == 2 && r.sha1s() == 2 && r.sha256s() == 2);
    assert!(rt; r.key_at(0) == A && r.key_at(1) == B);
    assert!(rt; r.sha1_at(0) == [5; 20].as_slice() && r.sha256_at(1) == [9; 32].as_slice());
    assert!(rt; r.iter_sha1s().next() == Some([5; 20].as_slice()));
    assert!(rt; r.iter_sha256s().next() == Some([8; 32].as_slice()));
    let mut iter = r.iter_keys();
    assert!(rt; iter.next() == Some(A) && iter.next() == Some(B) && iter.next().is_none());
}
