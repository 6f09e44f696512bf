//! A buffered reader of the standard library as a source.

ghost use Rattle.std.specs.Prelude.{◌≡◌, false};
ghost use Rattle.std.specs.Io.Buffered.{reader_buffer, reader_remaining};

use crate::device::{Failed, Source};
use crate::from_read::FromRead;
use std::io::{BufRead, BufReader, Read};

/// A buffered reader of the standard library, made a source as `FromRead` does with any reader.
/// Bytes in the buffer are taken without a call of the inner reader.
#[derive(Drop)]
pub struct FromBuffer<R: Read + Drop> {
    reader: FromRead<BufReader<R>>,
}

impl<R: Read + Drop> FromBuffer<R> {
    /// A reader that has not failed, around `inner`.
    pub fn new(inner: BufReader<R>) -> Self
        ensures bytes { ⟦<FromBuffer<R> as Source>⟧.left result
            ≡ reader_remaining R.remaining inner }
        ensures fresh { ⟦<FromBuffer<R> as Source>⟧.has_failed result ≡ false }
    {
        FromBuffer {
            reader: FromRead::new(inner),
        }
    }
}

impl<R: Read + Drop> Source for FromBuffer<R> {
    ghost left = { λ source. reader_remaining R.remaining source.reader.inner };

    ghost has_failed = { λ source. source.reader.failed };

    ghost buffered = { λ source. reader_buffer source.reader.inner };

    #[inline(always)]
    fn read(&mut self, into: &mut [u8]) -> Result<usize, Failed> {
        let held = self.reader.inner.buffer();
        let count = into.len();
        if self.reader.failed || count == 0 || held.len() < count {
            return self.reader.read(into);
        }
        into.copy_from_slice(&held[..count]);
        self.consume(count);
        Ok(count)
    }

    fn failed(&self) -> bool {
        self.reader.failed
    }

    #[inline(always)]
    fn buffer(&self) -> &[u8] {
        self.reader.inner.buffer()
    }

    #[inline(always)]
    fn consume(&mut self, count: usize) {
        self.reader.inner.consume(count);
    }
}
