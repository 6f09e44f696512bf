//! Calls whose allocations fail. `tests/cases/inject_faults` runs each test once for each of its
//! allocations, and makes that one fail, until no allocation is left. The call returns the same as
//! with ample memory, or reports a failed allocation, which it never does if none failed.
#![tactic(auto)]

#[cfg(test)]
mod tests;
