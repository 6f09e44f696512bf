//! Borrowed bytes, as a source whose buffer they are.

ghost use Rattle.std.specs.Prelude.{◌≡◌, Some, false};

use crate::device::{Failed, Source};

/// The rest of borrowed bytes. Reading never fails.
#[derive(Drop)]
pub struct Lent<'a> {
    rest: &'a [u8],
}

impl<'a> Lent<'a> {
    /// All of the bytes.
    pub fn new(bytes: &'a [u8]) -> Self
        ensures bytes { ⟦<Lent<'a> as Source>⟧.left result ≡ Some bytes.now }
        ensures fresh { ⟦<Lent<'a> as Source>⟧.has_failed result ≡ false }
    {
        Lent { rest: bytes }
    }
}

impl<'a> Source for Lent<'a> {
    ghost left = { λ lent. Some lent.rest.now };

    ghost has_failed = { λ _. false };

    ghost buffered = { λ lent. lent.rest.now };

    #[inline(always)]
    fn read(&mut self, into: &mut [u8]) -> Result<usize, Failed> {
        let all = self.rest;
        let count = into.len().min(all.len());
        into[..count].copy_from_slice(&all[..count]);
        self.rest = &all[count..];
        Ok(count)
    }

    fn failed(&self) -> bool {
        false
    }

    #[inline(always)]
    fn buffer(&self) -> &[u8] {
        self.rest
    }

    #[inline(always)]
    fn consume(&mut self, count: usize) {
        self.rest = &self.rest[count..];
    }
}
