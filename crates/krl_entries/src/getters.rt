//! The contents of revocations, in order.
ghost use Rattle.std.specs.Prelude.{◌≡◌, ◌↔◌, ◌<◌, IsTrue, length, Some, slice_get, sum_by};
ghost use Rattle.krl_entries.specs.Facts.{facts_of};
ghost use Rattle.krl_entries.specs.Revocations.{IsOrderly, held, nothing};

use crate::entries_by_authority::EntriesByAuthority;
use crate::facts::Facts;
use crate::listed::{Authorities, Listed};
use crate::revocations::Revocations;
use crate::texts::Texts;
use serial_set::Spans;

impl<S: Spans> Revocations<S> {
    /// Whether nothing is held.
    pub fn is_nothing(&self) -> bool
        ensures { IsTrue result ↔ (self.now ≡ nothing) }
    {
        self.authorities() == 0 && self.keys() == 0 && self.sha1s() == 0 && self.sha256s() == 0
    }

    /// How many authorities have a serial or a key ID. The section for all authorities counts as
    /// one.
    pub fn authorities(&self) -> usize
        ensures count { result ≡ length self.now.sections }
        ensures orderly { IsOrderly self.now }
    {
        self.sections.len()
    }

    /// The section of the authority at an index below `authorities()`. The section for all
    /// authorities comes first, then the others in the order of their bytes. For a loop over all of
    /// them use `iter_authorities`.
    pub fn authority_at(&self, index: usize) -> Listed<'_, S>
        requires { index < length self.now.sections }
        ensures { slice_get self.now.sections index ≡ Some result }
    {
        self.sections.at(index)
    }

    /// An iterator over the authorities, in the order of `authority_at`.
    pub fn iter_authorities(&self) -> Authorities<'_, S>
        ensures { result ≡ self.now.sections }
    {
        self.sections.iter()
    }

    /// An iterator over all stored entries: each authority with its serial numbers and its key IDs,
    /// then keys, SHA-1 and SHA-256 hashes.
    pub fn facts(&self) -> Facts<'_, S>
        ensures { result ≡ facts_of self.now }
    {
        Facts::over(
            self.iter_authorities(),
            self.iter_keys(),
            self.iter_sha1s(),
            self.iter_sha256s(),
        )
    }

    /// How many spans of serials all authorities have together. The call visits each authority.
    pub fn held(&self) -> u128
        ensures { result ≡ held self.now }
    {
        held_in(&self.sections)
    }

    /// How many keys there are.
    pub fn keys(&self) -> usize
        ensures { result ≡ length self.now.keys }
    {
        self.keys.len()
    }

    /// The blob of the key at an index below `keys()`, in the order of their bytes. The call visits
    /// the keys before it. For a loop over all of them use `iter_keys`.
    pub fn key_at(&self, index: usize) -> &[u8]
        requires { index < length self.now.keys }
        ensures { slice_get self.now.keys index ≡ Some result.now }
    {
        Texts::many(&self.keys).at(index)
    }

    /// An iterator over the blobs of the keys, in the order of their bytes.
    pub fn iter_keys(&self) -> Texts<'_>
        ensures { result ≡ self.now.keys }
    {
        Texts::many(&self.keys)
    }

    /// How many SHA-1 hashes there are.
    pub fn sha1s(&self) -> usize
        ensures { result ≡ length self.now.sha1s }
    {
        self.sha1s.len()
    }

    /// The SHA-1 hash, 20 bytes long, at an index below `sha1s()`, in the order of their bytes. The
    /// call visits the hashes before it. For a loop over all of them use `iter_sha1s`.
    pub fn sha1_at(&self, index: usize) -> &[u8]
        requires { index < length self.now.sha1s }
        ensures { slice_get self.now.sha1s index ≡ Some result.now }
    {
        Texts::sha1s(&self.sha1s).at(index)
    }

    /// An iterator over the SHA-1 hashes, in the order of their bytes.
    pub fn iter_sha1s(&self) -> Texts<'_>
        ensures { result ≡ self.now.sha1s }
    {
        Texts::sha1s(&self.sha1s)
    }

    /// How many SHA-256 hashes there are.
    pub fn sha256s(&self) -> usize
        ensures { result ≡ length self.now.sha256s }
    {
        self.sha256s.len()
    }

    /// The SHA-256 hash, 32 bytes long, at an index below `sha256s()`, in the order of their bytes.
    /// The call visits the hashes before it. For a loop over all of them use `iter_sha256s`.
    pub fn sha256_at(&self, index: usize) -> &[u8]
        requires { index < length self.now.sha256s }
        ensures { slice_get self.now.sha256s index ≡ Some result.now }
    {
        Texts::sha256s(&self.sha256s).at(index)
    }

    /// An iterator over the SHA-256 hashes, in the order of their bytes.
    pub fn iter_sha256s(&self) -> Texts<'_>
        ensures { result ≡ self.now.sha256s }
    {
        Texts::sha256s(&self.sha256s)
    }
}

// How many spans all authorities have together.
fn held_in<S: Spans>(sections: &EntriesByAuthority<S>) -> u128
    ensures { result ≡ sum_by (λ section. length section.spans) sections.now }
{
    let mut iter = sections.iter();
    let mut left = sections.len();
    let mut total: u128 = 0;
    while left > 0 {
        let Some(listed) = iter.next() else {
            unreachable!();
        };
        total += listed.spans().len() as u128;
        left -= 1;
    }
    total
}
