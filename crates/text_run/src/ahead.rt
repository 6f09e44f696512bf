//! A reader of which the first byte was looked at.

ghost use Rattle.std.specs.Prelude.{◌≡◌, ℕ, List, IfOk, IfSome, None, Ok, Some, false};
ghost use Rattle.std.specs.Io.KnownBytes.{IsAtEnd};
ghost use Rattle.byte_streams.specs.Pull.{after_ahead};

use byte_streams::{Failed, Source};

/// A reader that gives a byte before those of another one.
#[derive(Drop)]
pub(crate) struct Ahead<R: Source + Drop> {
    first: Option<u8>,
    reader: R,
}

impl<R: Source + Drop> Ahead<R> {
    /// A reader of the same bytes; none if there are none.
    pub(crate) fn over(reader: R) -> Result<Option<Self>, Failed>
        requires { R.has_failed reader ≡ false }
        ensures none { result ≡ Ok None → IsAtEnd (R.left reader) }
        ensures same { IfOk result (λ ahead. IfSome ahead (λ it. (text : List ℕ)
            → R.left reader ≡ Some text → ⟦<Ahead<R> as Source>⟧.left it ≡ Some text)) }
        ensures working { IfOk result (λ ahead. IfSome ahead (λ it.
            ⟦<Ahead<R> as Source>⟧.has_failed it ≡ false)) }
    {
        let mut reader = reader;
        let mut first = [0];
        match reader.read(&mut first)? {
            0 => Ok(None),
            _ => Ok(Some(Ahead {
                first: Some(first[0]),
                reader,
            })),
        }
    }
}

impl<R: Source + Drop> Source for Ahead<R> {
    ghost use Rattle.text_run.specs.Ahead.{buffered_after};

    ghost left = { λ ahead. after_ahead ahead.first (R.left ahead.reader) };

    ghost has_failed = { λ ahead. R.has_failed ahead.reader };

    ghost buffered = { λ ahead. buffered_after ahead.first (R.buffered ahead.reader) };

    fn read(&mut self, into: &mut [u8]) -> Result<usize, Failed> {
        match self.first {
            Some(byte) if !into.is_empty() && !self.reader.failed() => {
                into[0] = byte;
                self.first = None;
                Ok(1)
            }
            _ => self.reader.read(into),
        }
    }

    fn failed(&self) -> bool {
        self.reader.failed()
    }

    fn buffer(&self) -> &[u8] {
        match self.first {
            Some(_) => &[],
            None => self.reader.buffer(),
        }
    }

    fn consume(&mut self, count: usize) {
        if self.first.is_none() {
            self.reader.consume(count);
        }
    }
}
