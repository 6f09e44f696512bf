//! The result of a call in which an allocation may have failed.

use std::process::Abort;

/// Prints that an allocation failed: `tests/cases/inject_faults` looks for this line, which no test
/// may print if no allocation failed.
pub fn ran_out(rt: &(impl AllocGlobal + Abort + Print)) {
    println!(rt; "memory ran out").expect(rt, "standard output takes it");
}

/// The value that a call returned. None if its fault is that an allocation failed; it may have no
/// other fault.
pub fn answered<A, E: PartialEq + Drop>(
    rt: &(impl AllocGlobal + Abort + Print),
    reported: Result<A, E>,
    no_memory: E,
) -> Option<A> {
    match reported {
        Ok(answer) => Some(answer),
        Err(fault) => {
            assert!(rt; fault == no_memory, "the fault is another one");
            ran_out(rt);
            None
        }
    }
}
