//! The callers of the pages.

ghost use Rattle.std.specs.Prelude.{◌↔◌, ◌<◌, ◌≤◌, IfOk, IsTrue};

use serial_set::Spans;
use span_sets::Held;
use span_vec::SpanVec;
use std::alloc::{AllocError, Global};

/// Whether a serial is a member of a set once those from `lo` to `hi` are added to it.
fn is_added<S: Spans>(set: &mut S, lo: u64, hi: u64, serial: u64) -> Result<bool, AllocError>
    requires from_one { 0 < lo }
    requires ordered { lo ≤ hi }
    ensures { IfOk result (λ added. (lo ≤ serial) × (serial ≤ hi) → IsTrue added) }
{
    set.add(lo, hi)?;
    Ok(set.has(serial))
}

/// Whether a serial is one of those from `lo` to `hi`, asked of a set of them.
fn is_within(alloc: Global, lo: u64, hi: u64, serial: u64) -> Result<bool, AllocError>
    requires from_one { 0 < lo }
    requires ordered { lo ≤ hi }
    ensures { IfOk result (λ within. IsTrue within ↔ ((lo ≤ serial) × (serial ≤ hi))) }
{
    let mut set = Held::empty(alloc)?;
    set.add(lo, hi)?;
    Ok(set.has(serial))
}

/// Whether a set and one in a sorted vector both have a serial, or neither has it.
fn answer_alike<S: Spans>(set: &S, vector: &SpanVec, serial: u64) -> bool {
    set.has(serial) == vector.has(serial)
}

#[test]
fn a_set_is_asked(rt: HostRuntime) {
    for (serial, want) in [
        (6, false),
        (7, true),
        (9, true),
        (10, false),
        (u64::MAX, false),
    ] {
        let within = is_within(rt.alloc(), 7, 9, serial).expect(&rt, "there is memory");
        assert!(rt; within == want, "in case {serial}");
    }
}

#[test]
fn an_interval_is_added(rt: HostRuntime) {
    let mut set = Held::empty(rt.alloc()).expect(&rt, "there is memory");
    for (lo, hi, serial, want) in [(7, 9, 6, false), (5, 6, 6, true), (20, 20, 8, true)] {
        let added = is_added(&mut set, lo, hi, serial).expect(&rt, "there is memory");
        assert!(rt; added == want, "after {lo}-{hi}");
    }
}

#[test]
fn both_sets_are_asked(rt: HostRuntime) {
    let mut set = Held::empty(rt.alloc()).expect(&rt, "there is memory");
    let mut vector = SpanVec::empty(rt.alloc()).expect(&rt, "there is memory");
    vector.add(7, 9).expect(&rt, "there is memory");
    assert!(rt; answer_alike(&set, &vector, 6) && !answer_alike(&set, &vector, 7));
    set.add(7, 9).expect(&rt, "there is memory");
    assert!(rt; answer_alike(&set, &vector, 7));
}
