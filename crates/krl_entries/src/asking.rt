//! Whether single names are held.

ghost use Rattle.std.specs.Prelude.{◌≡◌, ◌↔◌, Contains, IsTrue, MatchOption};
ghost use Rattle.sha1.specs.Sha1.{sha1};
ghost use Rattle.sha2.specs.Sha256.{sha256};
ghost use Rattle.krl_types.specs.Item.{IsItem};
ghost use Rattle.krl_entries.specs.Changes.{empty_section};
ghost use Rattle.krl_entries.specs.Named.{item_name};
ghost use Rattle.krl_entries.specs.Revocations.{HoldsId, HoldsName, HoldsSerial, IsOrderly};
ghost use Rattle.krl_entries.specs.Revocations.{IsUnder};

use crate::listed::Listed;
use crate::revocations::Revocations;
use crate::texts::has_text;
use krl_types::ItemKind;
use serial_set::Spans;
use sha1::Sha1;
use sha2::{Digest, Sha256};
use ssh_wire::array_of;

impl<S: Spans> Revocations<S> {
    /// Returns the revocations unchanged. They are in order.
    pub fn in_order(&self) -> &Self
        ensures same { result.now ≡ self.now }
        ensures orderly { IsOrderly self.now }
    {
        let _keys = &self.keys;
        self
    }

    /// Whether a key is held by its blob.
    pub fn has_blob(&self, blob: &[u8]) -> bool
        ensures { IsTrue result ↔ Contains self.now.keys blob.now }
    {
        has_text(&self.keys, blob)
    }

    /// Whether the SHA-1 of a key is held. It is not computed if there are no such hashes.
    pub fn has_sha1(&self, blob: &[u8]) -> bool
        ensures { IsTrue result ↔ Contains self.now.sha1s (sha1 blob.now) }
    {
        if self.sha1s.is_empty() {
            return false;
        }
        self.sha1s.contains(&Sha1::digest(blob))
    }

    /// Whether the SHA-256 of a key is held. It is not computed if there are no such hashes.
    pub fn has_sha256(&self, blob: &[u8]) -> bool
        ensures { IsTrue result ↔ Contains self.now.sha256s (sha256 blob.now) }
    {
        if self.sha256s.is_empty() {
            return false;
        }
        self.sha256s.contains(&Sha256::digest(blob))
    }

    /// The section of an authority, given by its bytes, or of all authorities if there are none.
    pub fn section<'a>(&'a self, authority: &'a [u8]) -> Option<Listed<'a, S>>
        ensures { MatchOption result
            (IsUnder self.now.sections authority.now (empty_section authority.now))
            (IsUnder self.now.sections authority.now) }
    {
        match self.sections.find(authority) {
            None => None,
            Some(section) => Some(Listed::new(authority, section)),
        }
    }

    /// Whether a key ID is held under exactly this authority.
    pub fn has_id(&self, authority: &[u8], id: &[u8]) -> bool
        ensures { IsTrue result ↔ HoldsId self.now.sections authority.now id.now }
    {
        match self.sections.find(authority) {
            None => false,
            Some(section) => section.ids.has(id),
        }
    }

    /// Whether a serial number is held under exactly this authority.
    pub fn has_serial(&self, authority: &[u8], serial: u64) -> bool
        ensures { IsTrue result ↔ HoldsSerial self.now.sections authority.now serial }
    {
        match self.sections.find(authority) {
            None => false,
            Some(section) => section.spans.has(serial),
        }
    }

    /// Whether an item is held, a key ID under exactly this authority.
    pub fn has_item(&self, authority: &[u8], kind: ItemKind, item: &[u8]) -> bool
        requires { IsItem kind item.now }
        ensures { IsTrue result ↔ HoldsName self.now (item_name kind authority.now item.now) }
    {
        match kind {
            ItemKind::Id => self.has_id(authority, item),
            ItemKind::Key => self.has_blob(item),
            ItemKind::Sha1 => self.sha1s.contains(&array_of(item)),
            ItemKind::Sha256 => self.sha256s.contains(&array_of(item)),
        }
    }
}
