//! The revocations of keys and certificates.
ghost use Rattle.std.specs.Prelude.{◌≡◌, ◌+◌, ◌<◌, ◌≤◌, ◌∷◌, [], ℕ, List, length, IfOk, OnOk};
ghost use Rattle.std.specs.Prelude.{OnErr, Some};
ghost use Rattle.krl_entries.specs.Addition.{IsOneAddition, StoresMore};
ghost use Rattle.krl_entries.specs.Changes.{ChangesUnder, HoldsMore, IsOneChange, MeansMore};
ghost use Rattle.krl_entries.specs.Changes.{added_entries, bytes_in};
ghost use Rattle.krl_entries.specs.Gathered.{HasPlace, TakesOut, whole};
ghost use Rattle.krl_entries.specs.Revocations.{IsNamed, IsOrderly, Means, nothing, held, stored};
ghost use Rattle.krl_types.specs.Entry.{RangeEntry, IdEntry, KeyEntry, Sha1Entry, Sha256Entry};

use crate::addition::Addition;
use crate::authority_entries::Apart;
use crate::entries_by_authority::EntriesByAuthority;
use crate::texts::put_text;
use krl_types::ItemKind;
use serial_set::{Span, Spans};
use ssh_wire::array_of;
use std::alloc::{AllocError, Global};
use std::collections::BTreeSet;
use std::marker::Model;

/// Revocations: serial numbers and key IDs under an authority or under all authorities, and keys by
/// their blobs or hashes. Contracts see the sections of the authorities and the lists of keys and
/// hashes, each in the order of their bytes.
#[derive(Drop)]
pub struct Revocations<S: Spans> {
    alloc: Global,
    pub(crate) sections: EntriesByAuthority<S>,
    pub(crate) keys: BTreeSet<Vec<u8>>,
    pub(crate) sha1s: BTreeSet<[u8; 20]>,
    pub(crate) sha256s: BTreeSet<[u8; 32]>,
}

impl<S: Spans> Model for Revocations<S> {
    ghost use Rattle.krl_entries.specs.Revocations.{Revocations, revocations_of, IsOrderly};
    ghost use Rattle.krl_entries.specs.Texts.{texts_of};

    ghost Value = { Revocations };

    ghost view = { λ r.
        revocations_of r.sections (texts_of r.keys.keys) r.sha1s.keys r.sha256s.keys };

    ghost invariant = { λ r. IsOrderly
        (revocations_of r.sections (texts_of r.keys.keys) r.sha1s.keys r.sha256s.keys) };
}

impl<S: Spans> Revocations<S> {
    ghost use Rattle.krl_entries.specs.AuthorityEntries.{apart_of};

    /// No revocations. Allocates nothing.
    pub fn new(alloc: Global) -> Revocations<S>
        ensures nothing { result ≡ nothing }
        ensures means { Means result [] }
    {
        Revocations {
            alloc,
            sections: EntriesByAuthority::new(alloc),
            keys: BTreeSet::new(alloc),
            sha1s: BTreeSet::new(alloc),
            sha256s: BTreeSet::new(alloc),
        }
    }

    /// Revokes the serials from `lo` to `hi` of an authority, given by its bytes, or of all
    /// authorities if there are none. `lo` is above 0 and at most `hi`. Fails only if an allocation
    /// fails, and then changes nothing.
    pub fn add_serials(&mut self, authority: &[u8], lo: u64, hi: u64) -> Result<(), AllocError>
        requires from_one { 0 < lo }
        requires ordered { lo ≤ hi }
        ensures means { OnOk result (MeansMore self.old self.new
            (RangeEntry authority.now lo hi ∷ [])) }
        ensures named { OnOk result (IsNamed self.new authority.now) }
        ensures refused { OnErr result (self.new ≡ self.old) }
        ensures held { held self.new ≤ held self.old + 1 }
        ensures changes { ChangesUnder authority.now 0 self.old self.new }
    {
        self.add_under(authority, Addition::Serials(&[Span { lo, hi }]))
    }

    /// Revokes the certificates with a key ID of an authority, given by its bytes, or of all
    /// authorities if there are none. Fails only if an allocation fails, and then changes nothing.
    pub fn add_id(&mut self, authority: &[u8], id: &[u8]) -> Result<(), AllocError>
        ensures means { OnOk result (MeansMore self.old self.new
            (IdEntry authority.now id.now ∷ [])) }
        ensures named { OnOk result (IsNamed self.new authority.now) }
        ensures refused { OnErr result (self.new ≡ self.old) }
        ensures held { held self.new ≡ held self.old }
        ensures changes { ChangesUnder authority.now (length id.now) self.old self.new }
    {
        self.add_under(authority, Addition::Item(ItemKind::Id, id))
    }

    // Adds under an authority, with one search for it. Fails only if an allocation fails, and then
    // changes nothing.
    fn add_under(&mut self, authority: &[u8], addition: Addition<'_>) -> Result<(), AllocError>
        requires { IsOneChange addition }
        ensures means { OnOk result (MeansMore self.old self.new
            (added_entries authority.now addition.entry)) }
        ensures named { OnOk result (IsNamed self.new authority.now) }
        ensures refused { OnErr result (self.new ≡ self.old) }
        ensures held { HoldsMore addition.entry (held self.old) (held self.new) }
        ensures changes { ChangesUnder authority.now (bytes_in addition.entry) self.old self.new }
    {
        self.sections.add(authority, addition)?;
        Ok(())
    }

    /// Revokes what an addition names, certificates under an authority. Fails only if an allocation
    /// fails, and then changes nothing.
    #[inline(always)]
    pub fn add(&mut self, authority: &[u8], addition: Addition<'_>) -> Result<(), AllocError>
        requires { IsOneAddition addition }
        ensures means { OnOk result (MeansMore self.old self.new
            (added_entries authority.now addition.entry)) }
        ensures orderly { IsOrderly self.old }
        ensures refused { OnErr result (self.new ≡ self.old) }
        ensures held { HoldsMore addition.entry (held self.old) (held self.new) }
        ensures stored { StoresMore authority.now addition.entry self.old self.new }
    {
        match addition {
            Addition::Serials(_) => self.add_under(authority, addition),
            Addition::Item(kind, item) => match kind {
                ItemKind::Key => self.add_key(item),
                ItemKind::Sha1 => self.add_sha1(&array_of(item)),
                ItemKind::Sha256 => self.add_sha256(&array_of(item)),
                ItemKind::Id => self.add_under(authority, addition),
            },
        }
    }

    /// Revokes a key by its blob. Fails only if an allocation fails, and then changes nothing.
    pub fn add_key(&mut self, blob: &[u8]) -> Result<(), AllocError>
        ensures means { OnOk result (MeansMore self.old self.new (KeyEntry blob.now ∷ [])) }
        ensures orderly { IsOrderly self.old }
        ensures refused { OnErr result (self.new ≡ self.old) }
        ensures held { held self.new ≡ held self.old }
        ensures stored { stored self.new ≤ stored self.old + length blob.now }
        ensures sections { self.new.sections ≡ self.old.sections }
        ensures keys { length self.new.keys ≤ length self.old.keys + 1 }
    {
        put_text(self.alloc, &mut self.keys, blob)?;
        Ok(())
    }

    /// Revokes a key by the SHA-1 of its blob. Fails only if an allocation fails, and then changes
    /// nothing.
    pub fn add_sha1(&mut self, hash: &[u8; 20]) -> Result<(), AllocError>
        ensures means { OnOk result (MeansMore self.old self.new (Sha1Entry hash.now ∷ [])) }
        ensures orderly { IsOrderly self.old }
        ensures refused { OnErr result (self.new ≡ self.old) }
        ensures held { held self.new ≡ held self.old }
        ensures stored { stored self.new ≤ stored self.old + 20 }
        ensures sections { self.new.sections ≡ self.old.sections }
    {
        self.sha1s.insert(*hash)?;
        Ok(())
    }

    /// Revokes a key by the SHA-256 of its blob. Fails only if an allocation fails, and then
    /// changes nothing.
    pub fn add_sha256(&mut self, hash: &[u8; 32]) -> Result<(), AllocError>
        ensures means { OnOk result (MeansMore self.old self.new (Sha256Entry hash.now ∷ [])) }
        ensures orderly { IsOrderly self.old }
        ensures refused { OnErr result (self.new ≡ self.old) }
        ensures held { held self.new ≡ held self.old }
        ensures stored { stored self.new ≤ stored self.old + 32 }
        ensures sections { self.new.sections ≡ self.old.sections }
    {
        self.sha256s.insert(*hash)?;
        Ok(())
    }

    // Adds under an authority, with one search for it. If it has a section, that section takes the
    // addition and is taken out, and a section with only the addition stays there.
    pub(crate) fn take(
        &mut self,
        authority: &[u8],
        addition: Addition<'_>,
    ) -> Result<Option<Apart<S>>, AllocError>
        requires { IsOneChange addition }
        ensures ok { IfOk result (λ apart. TakesOut addition.entry authority.now self.old.sections
            (apart_of S.spans apart) self.new.sections) }
        ensures rest { self.new ≡ record self.old { sections = self.new.sections } }
        ensures refused { OnErr result (self.new ≡ self.old) }
        ensures orderly { IsOrderly self.old }
    {
        self.sections.take(authority, addition)
    }

    // Puts a section that was taken out back in its place.
    pub(crate) fn put_back(&mut self, apart: Apart<S>)
        requires { HasPlace (apart_of S.spans (Some apart)) self.old }
        ensures { self.new ≡ whole (apart_of S.spans (Some apart)) self.old }
    {
        self.sections.put_back(apart);
    }
}
