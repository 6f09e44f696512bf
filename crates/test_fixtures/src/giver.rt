//! Readers that give few bytes at a call, are interrupted, or fail.

ghost use Rattle.std.specs.Prelude.{IfOk};
ghost use Rattle.std.specs.Counts.{IsPrefixLen};

use crate::calls::begin;
use std::io::{self, ErrorKind, Read};

/// The behaviour of a reader after its bytes.
#[derive(Clone, Copy)]
pub enum Then {
    Ends,
    Fails,
    /// Ends, and fails on the next call.
    EndsOnce,
    /// Gives this number of zero bytes, and then ends.
    Zeros(usize),
}

/// Gives its bytes, at most `per_call` at a call, after `interruptions` interruptions. It fails
/// after `calls_before_failure` calls.
#[derive(Drop)]
pub struct Giver<'a> {
    pub bytes: &'a [u8],
    pub per_call: usize,
    pub interruptions: usize,
    pub calls_before_failure: usize,
    pub then: Then,
}

impl<'a> Giver<'a> {
    /// A reader that is not interrupted, does not fail, and ends where its bytes end.
    pub fn new(bytes: &'a [u8], per_call: usize) -> Giver<'a> {
        Giver {
            bytes,
            per_call,
            interruptions: 0,
            calls_before_failure: usize::MAX,
            then: Then::Ends,
        }
    }

    /// A reader that gives all of its bytes at once.
    pub fn whole(bytes: &'a [u8]) -> Giver<'a> {
        Giver::new(bytes, usize::MAX)
    }

    // The result of a call after the bytes.
    fn read_then(&mut self, into: &mut [u8]) -> io::Result<usize>
        ensures { IfOk result (λ count. IsPrefixLen count into.new) }
    {
        match self.then {
            Then::Ends => Ok(0),
            Then::Fails => Err(ErrorKind::Other.into()),
            Then::EndsOnce => {
                self.then = Then::Fails;
                Ok(0)
            }
            Then::Zeros(left) => {
                let count = left.min(into.len()).min(self.per_call);
                into[..count].fill(0);
                self.then = Then::Zeros(left - count);
                Ok(count)
            }
        }
    }
}

impl<'a> Read for Giver<'a> {
    fn read(&mut self, into: &mut [u8]) -> io::Result<usize> {
        begin(&mut self.interruptions, &mut self.calls_before_failure)?;
        if self.bytes.is_empty() && !into.is_empty() {
            return self.read_then(into);
        }
        let count = self.bytes.len().min(into.len()).min(self.per_call);
        into[..count].copy_from_slice(&self.bytes[..count]);
        self.bytes = &self.bytes[count..];
        Ok(count)
    }
}
