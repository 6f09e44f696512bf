//! Sets of spans, which are unchanged if an addition fails.
ghost use Rattle.std.specs.Prelude.{◌≡◌, ◌*◌, ◌^◌, ◌<◌, ◌≤◌, All};
ghost use Rattle.serial_set.specs.BitRuns.{IsInterval};
ghost use Rattle.serial_set.specs.Near.{AreNear};

use crate::tests::answered::ran_out;
use serial_set::{Span, Spans};
use span_sets::SpanPages;
use span_vec::SpanVec;
use std::alloc::AllocError;
use std::process::Abort;
use std::test::Fail;

// A set with no member, created again if an allocation failed.
fn empty<S: Spans>(rt: &(impl AllocGlobal + Abort + Print)) -> Result<S, AllocError> {
    match S::empty(rt.alloc()) {
        Ok(set) => Ok(set),
        Err(_) => {
            ran_out(rt);
            S::empty(rt.alloc())
        }
    }
}

// The order in which 1, 3, 5, .. 2047 are added.
#[derive(Clone, Copy)]
enum Order {
    Rising,
    Falling,
    // 1, 2047, 3, 2045, ..
    BothEnds,
}

const COUNT: u64 = 1024;

// The number that is added at a step.
fn number(order: Order, step: u64) -> u64 {
    let rises = match order {
        Order::Rising => true,
        Order::Falling => false,
        Order::BothEnds => step % 2 == 0,
    };
    match (order, rises) {
        (Order::BothEnds, true) => 1 + step % COUNT,
        (Order::BothEnds, false) => 2 * COUNT - step % COUNT,
        (_, true) => 1 + 2 * (step % COUNT),
        (_, false) => 2 * COUNT - 1 - 2 * (step % COUNT),
    }
}

// The set has exactly the numbers before a step, each in a span of its own.
fn is_before<S: Spans>(rt: &(impl AllocGlobal + Abort + Print), set: &S, order: Order, step: u64) {
    assert!(rt; set.len() as u64 == step);
    for other in 0..COUNT {
        assert!(rt; set.has(number(order, other)) == (other < step));
    }
}

// Adds the number of a step, again if that fails.
fn add<S: Spans>(
    rt: &(impl AllocGlobal + Abort + Print),
    set: &mut S,
    order: Order,
    step: u64,
) -> Result<(), Fail> {
    let serial = number(order, step);
    assert!(rt; serial > 0);
    if set.add(serial, serial).is_err() {
        ran_out(rt);
        is_before(rt, set, order, step);
        set.add(serial, serial)?;
    }
    Ok(())
}

// Adds all of them, and then one interval that joins them, again if that fails.
fn fill<S: Spans>(rt: &(impl AllocGlobal + Abort + Print), order: Order) -> Result<(), Fail> {
    let mut set: S = empty(rt)?;
    for step in 0..COUNT {
        add(rt, &mut set, order, step)?;
    }
    assert!(rt; set.len() as u64 == COUNT);
    if set.add(2, 2 * COUNT - 2).is_err() {
        ran_out(rt);
        is_before(rt, &set, order, COUNT);
        set.add(2, 2 * COUNT - 2)?;
    }
    assert!(rt; set.len() == 1 && set.has(1) && set.has(2 * COUNT - 1) && !set.has(2 * COUNT));
    Ok(())
}

#[test]
fn pages(rt: HostRuntime) -> Result<(), Fail> {
    fill::<SpanPages>(&rt, Order::Rising)?;
    fill::<SpanPages>(&rt, Order::Falling)?;
    fill::<SpanPages>(&rt, Order::BothEnds)
}

#[test]
fn one_vector(rt: HostRuntime) -> Result<(), Fail> {
    fill::<SpanVec>(&rt, Order::Rising)?;
    fill::<SpanVec>(&rt, Order::Falling)?;
    fill::<SpanVec>(&rt, Order::BothEnds)
}

// Intervals, and the number of spans after each was added.
const JOINING: [(u64, u64, usize); 4] = [(5, 5, 1), (7, 7, 2), (6, 6, 1), (8, u64::MAX, 1)];

// Adds intervals that touch and others that do not, again if that fails.
fn join<S: Spans>(rt: &(impl AllocGlobal + Abort + Print)) -> Result<(), Fail> {
    let mut set: S = empty(rt)?;
    for (lo, hi, expected) in JOINING {
        assert!(rt; 0 < lo && lo <= hi);
        let before = set.len();
        if set.add(lo, hi).is_err() {
            ran_out(rt);
            assert!(rt; set.len() == before && !set.has(hi));
            set.add(lo, hi)?;
        }
        assert!(rt; set.len() == expected && set.has(lo) && set.has(hi));
    }
    Ok(())
}

#[test]
fn joined_pages(rt: HostRuntime) -> Result<(), Fail> {
    join::<SpanPages>(&rt)
}

#[test]
fn a_joined_vector(rt: HostRuntime) -> Result<(), Fail> {
    join::<SpanVec>(&rt)
}

// An addition to an empty set, and one that makes a second entry.
const SECOND: [((u64, u64), (u64, u64)); 4] = [
    ((9, 9), (1000, 1000)),
    ((1000, 2000), (5, 5)),
    ((1000, 2000), (3000, 4000)),
    // a block and a run replace the run
    ((60, 200), (58, 58)),
];

// A set's only entry does not allocate. A second one does, and is added again if that fails.
#[test]
fn a_second_entry(rt: HostRuntime) -> Result<(), Fail> {
    for ((lo, hi), (from, to)) in SECOND {
        assert!(&rt; 0 < lo && lo <= hi && 0 < from && from <= to);
        let mut set: SpanPages = empty(&rt)?;
        set.add(lo, hi)?;
        if set.add(from, to).is_err() {
            ran_out(&rt);
            assert!(&rt; set.len() == 1 && set.has(lo) && set.has(hi) && !set.has(from));
            set.add(from, to)?;
        }
        assert!(&rt; set.len() == 2 && set.has(lo) && set.has(hi) && set.has(from) && set.has(to));
    }
    Ok(())
}

// Two spans that lie near each other.
fn near_in(window: u64) -> [Span; 2]
    requires { window < 2 ^ 57 }
    ensures intervals { All IsInterval result }
    ensures near { AreNear result }
{
    let first = 64 * window + 1;
    [
        Span {
            lo: first,
            hi: first + 1,
        },
        Span {
            lo: first + 9,
            hi: first + 60,
        },
    ]
}

// Adds the spans of a window, again if that fails.
fn add_near<S: Spans>(
    rt: &(impl AllocGlobal + Abort + Print),
    set: &mut S,
    window: u64,
) -> Result<(), Fail>
    requires { window < 2 ^ 57 }
{
    let near = near_in(window);
    if set.add_near(&near).is_err() {
        ran_out(rt);
        assert!(rt; set.len() as u64 == 2 * window);
        assert!(rt; !set.has(near[0].lo) && !set.has(near[1].hi));
        set.add_near(&near)?;
    }
    assert!(rt; set.has(near[0].lo) && set.has(near[1].hi));
    Ok(())
}

// Adds the spans of many windows, more than one page has room for.
fn fill_near<S: Spans>(rt: &(impl AllocGlobal + Abort + Print)) -> Result<(), Fail> {
    let mut set: S = empty(rt)?;
    for window in 0..COUNT {
        add_near(rt, &mut set, window)?;
    }
    assert!(rt; set.len() as u64 == 2 * COUNT);
    Ok(())
}

#[test]
fn pages_of_near_spans(rt: HostRuntime) -> Result<(), Fail> {
    fill_near::<SpanPages>(&rt)
}

#[test]
fn a_vector_of_near_spans(rt: HostRuntime) -> Result<(), Fail> {
    fill_near::<SpanVec>(&rt)
}
