//! Sets that fill many pages, for both representations.
ghost use Rattle.std.specs.Prelude.{◌≡◌, ◌+◌, ◌*◌, ◌^◌, ◌<◌, ◌≤◌};

use crate::tests::sets::{add, empty, has_just, has_span};
use serial_set::{Span, Spans};
use span_sets::SpanPages;
use span_vec::SpanVec;
use std::alloc::Global;
use std::process::Abort;

// The order in which numbers are added.
#[derive(Clone, Copy)]
enum Order {
    Rising,
    Falling,
    Alternating,
}

// Which of `count` numbers is next.
fn position(order: Order, index: u64, count: u64) -> u64
    requires { index < count }
    ensures { result < count }
{
    match order {
        Order::Rising => index,
        Order::Falling => count - 1 - index,
        Order::Alternating => {
            let half = index / 2;
            if index == 2 * half {
                half
            } else {
                count - 1 - half
            }
        }
    }
}

// The odd numbers from 1 on, in this order.
fn odd_numbers<S: Spans>(rt: &impl Abort, alloc: Global, order: Order, count: u64) -> S
    requires { count < 2 ^ 62 }
{
    let mut set: S = empty(rt, alloc);
    for index in 0..count {
        let serial = 2 * position(order, index, count) + 1;
        add(rt, &mut set, serial, serial);
    }
    set
}

// An interval that is added, the length after it, and a span with its position.
const ROWS: [(u64, u64, usize, usize, Span); 3] = [
    (1025, 1025, 1024, 512, Span { lo: 1025, hi: 1025 }),
    (1022, 1022, 1023, 510, Span { lo: 1021, hi: 1023 }),
    (2, 2046, 1, 0, Span { lo: 1, hi: 2047 }),
];

// The spans of a set of 1,024 odd numbers after each addition.
fn has_rows<S: Spans>(rt: &impl Abort, alloc: Global, order: Order) {
    let mut set: S = odd_numbers(rt, alloc, order, 1024);
    assert!(rt; set.len() == 1024 && has_span(&set, 511, Span { lo: 1023, hi: 1023 }));
    for (i, (lo, hi, length, at, span)) in ROWS.iter().enumerate() {
        add(rt, &mut set, *lo, *hi);
        assert!(rt;
            set.len() == *length && has_span(&set, *at, *span),
            "in case {i}"
        );
    }
}

const ORDERS: [Order; 3] = [Order::Rising, Order::Falling, Order::Alternating];

#[test]
fn joins_over_pages(rt: HostRuntime) {
    for order in &ORDERS {
        has_rows::<SpanPages>(&rt, rt.alloc(), *order);
        has_rows::<SpanVec>(&rt, rt.alloc(), *order);
    }
}

// The span of one number.
fn one(number: u64) -> Span {
    Span {
        lo: number,
        hi: number,
    }
}

// A set of 600,000 odd numbers, and one interval over most of them.
fn fills(rt: &impl Abort, alloc: Global, order: Order) {
    let mut set: SpanPages = odd_numbers(rt, alloc, order, 600_000);
    assert!(rt; set.len() == 600_000);
    assert!(rt; has_span(&set, 262_144, one(524_289)) && has_span(&set, 599_999, one(1_199_999)));
    add(rt, &mut set, 4, 1_199_996);
    let lo_to_hi = Span {
        lo: 3,
        hi: 1_199_997,
    };
    assert!(rt; has_just(&set, &[one(1), lo_to_hi, one(1_199_999)]));
}

// More spans than one page has room for, with ample memory.
#[test]
fn fills_pages(rt: HostRuntime) {
    for order in &ORDERS {
        fills(&rt, rt.alloc(), *order);
    }
}
