//! A reader of the standard library as a source.

ghost use Rattle.std.specs.Prelude.{◌≡◌, [], false};

use crate::device::{Failed, Source};
use crate::interruptions::Interruptions;
use std::io::Read;

/// A reader of the standard library. It gives exactly the bytes that the inner reader gives. A read
/// that is interrupted is tried again, 1,000 times in all; the next interruption and any other
/// error are a failure, and after a failure the inner reader is not called again.
#[derive(Drop)]
pub struct FromRead<R: Read + Drop> {
    pub(crate) inner: R,
    interruptions: Interruptions,
    pub(crate) failed: bool,
}

impl<R: Read + Drop> FromRead<R> {
    /// A reader that has not failed, around `inner`.
    pub fn new(inner: R) -> Self
        ensures bytes { ⟦<FromRead<R> as Source>⟧.left result ≡ R.remaining inner }
        ensures fresh { ⟦<FromRead<R> as Source>⟧.has_failed result ≡ false }
    {
        FromRead {
            inner,
            interruptions: Interruptions::new(),
            failed: false,
        }
    }
}

impl<R: Read + Drop> Source for FromRead<R> {
    ghost left = { λ reader. R.remaining reader.inner };

    ghost has_failed = { λ reader. reader.failed };

    ghost buffered = { λ _. [] };

    #[inline(never)]
    fn read(&mut self, into: &mut [u8]) -> Result<usize, Failed> {
        while !self.failed {
            match self.inner.read(into) {
                Ok(count) => return Ok(count),
                Err(error) => {
                    if !self.interruptions.pass_over(&error) {
                        self.failed = true;
                    }
                }
            }
        }
        Err(Failed)
    }

    fn failed(&self) -> bool {
        self.failed
    }

    fn buffer(&self) -> &[u8] {
        &[]
    }

    fn consume(&mut self, _count: usize) {}
}
