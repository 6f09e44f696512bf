//! Writers that take few bytes at a call, are interrupted, or fail.

use crate::calls::begin;
use std::alloc::Global;
use std::io::{self, Write};

/// Takes at most `per_call` bytes at a call, after `interruptions` interruptions. It fails after
/// `calls_before_failure` calls.
#[derive(Drop)]
pub struct Taker {
    pub taken: Vec<u8>,
    pub per_call: usize,
    pub interruptions: usize,
    pub calls_before_failure: usize,
}

impl Taker {
    /// A writer that is not interrupted.
    pub fn new(alloc: Global, per_call: usize, calls_before_failure: usize) -> Taker {
        Taker {
            taken: Vec::new(alloc),
            per_call,
            interruptions: 0,
            calls_before_failure,
        }
    }

    /// A writer that takes everything.
    pub fn whole(alloc: Global) -> Taker {
        Taker::new(alloc, usize::MAX, usize::MAX)
    }
}

impl Write for Taker {
    fn write(&mut self, bytes: &[u8]) -> io::Result<usize> {
        begin(&mut self.interruptions, &mut self.calls_before_failure)?;
        let count = bytes.len().min(self.per_call);
        self.taken.extend_from_slice(&bytes[..count])?;
        Ok(count)
    }

    fn flush(&mut self) -> io::Result<()> {
        Ok(())
    }
}
