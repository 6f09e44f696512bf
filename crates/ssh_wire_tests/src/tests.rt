//! Facts that no contract states: the standard's own examples, calls with ample memory.

mod cursor;
mod page;
mod put;

use ssh_wire::{Bytes, PullFault, WireFault};
use test_fixtures::misprinted;

const WIRE_FAULTS: [(WireFault, &str); 3] = [
    (WireFault::Short, "wire 1 Short"),
    (WireFault::Negative, "wire 2 Negative"),
    (WireFault::NotShortest, "wire 3 NotShortest"),
];

const PULL_FAULTS: [(PullFault, &str); 4] = [
    (PullFault::EndsEarly, "pull 1 EndsEarly"),
    (PullFault::TooLong, "pull 2 TooLong"),
    (PullFault::Read, "pull 3 Read"),
    (PullFault::NoMemory, "pull 4 NoMemory"),
];

#[test]
fn faults_print_their_numbers_and_names(rt: HostRuntime) {
    assert!(rt; misprinted(rt.alloc(), &WIRE_FAULTS) == Ok(None));
    assert!(rt; misprinted(rt.alloc(), &PULL_FAULTS) == Ok(None));
}

#[test]
fn bytes_are_those_of_the_vector(rt: HostRuntime) {
    let bytes = Bytes::from_vec(vec![in rt.alloc(); 7, 8].expect(&rt, "there is memory"));
    assert!(rt; bytes.as_slice() == [7, 8].as_slice());
    assert!(rt; bytes.into_vec().as_slice() == [7, 8].as_slice());
}
