//! A writer of the standard library as a sink.

ghost use Rattle.std.specs.Prelude.{◌≡◌, false};

use crate::device::{Failed, Sink};
use crate::interruptions::Interruptions;
use std::io::Write;

/// A writer of the standard library. It passes exactly its bytes to the inner writer. A write that
/// is interrupted is tried again, 1,000 times in all; the next interruption, any other error, and a
/// write that takes none of some bytes are a failure, and after a failure the inner writer is not
/// called again.
#[derive(Drop)]
pub struct ToWrite<W: Write + Drop> {
    inner: W,
    interruptions: Interruptions,
    failed: bool,
}

impl<W: Write + Drop> ToWrite<W> {
    /// A writer that has not failed, around `inner`.
    pub fn new(inner: W) -> Self
        ensures bytes { ⟦<ToWrite<W> as Sink>⟧.taken result ≡ W.contents inner }
        ensures fresh { ⟦<ToWrite<W> as Sink>⟧.has_failed result ≡ false }
    {
        ToWrite {
            inner,
            interruptions: Interruptions::new(),
            failed: false,
        }
    }
}

impl<W: Write + Drop> Sink for ToWrite<W> {
    ghost taken = { λ writer. W.contents writer.inner };

    ghost has_failed = { λ writer. writer.failed };

    fn write(&mut self, bytes: &[u8]) -> Result<usize, Failed> {
        while !self.failed {
            match self.inner.write(bytes) {
                Ok(0) if !bytes.is_empty() => self.failed = true,
                Ok(count) => return Ok(count),
                Err(error) => {
                    if !self.interruptions.pass_over(&error) {
                        self.failed = true;
                    }
                }
            }
        }
        Err(Failed)
    }

    fn failed(&self) -> bool {
        self.failed
    }
}
