//! Lists that are written to a device that may fail.

use crate::tests::lists::{header, list_of};
use crate::tests::said::held_of_runs;
use byte_streams::ToWrite;
use krl_core::Revocations;
use krl_writer::{WriteFault, write_krl};
use span_sets::Held;
use std::alloc::Global;
use test_fixtures::{FIVE, Taker};

// The result of writing a list to a device.
fn send(alloc: Global, held: &Revocations<Held>, device: &mut Taker) -> Result<(), WriteFault> {
    let mut writer = ToWrite::new(device);
    write_krl(alloc, &header(alloc), held, &mut writer)
}

// The number of bytes taken at a call, the number of calls before the device fails, the number of
// bytes that it took, and the result. The bytes written are counted, and a device that takes
// nothing fails.
const ROWS: [(usize, usize, usize, Result<(), WriteFault>); 3] = [
    (3, 3, 9, Err(WriteFault::Write { count: 9 })),
    (0, 1, 0, Err(WriteFault::Write { count: 0 })),
    (3, 100, 70, Ok(())),
];

#[test]
fn counts_what_went_out(rt: HostRuntime) {
    let text = list_of(&rt, rt.alloc(), FIVE);
    let held = held_of_runs(&rt, rt.alloc(), &[(5, 5)]);
    for (i, (per_call, calls, count, expected)) in ROWS.iter().enumerate() {
        let mut device = Taker::new(rt.alloc(), *per_call, *calls);
        let done = send(rt.alloc(), &held, &mut device);
        assert!(rt; done == *expected, "in case {i}");
        assert!(rt;
            text.get(..*count) == Some(device.taken.as_slice()),
            "in case {i}"
        );
    }
}
