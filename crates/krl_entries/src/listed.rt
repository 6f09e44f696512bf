//! The section of one authority, borrowed.
ghost use Rattle.std.specs.Prelude.{◌≡◌, ◌<◌, length, Some, slice_get};

use crate::authority_entries::AuthorityEntries;
use crate::texts::Texts;
use serial_set::Spans;
use std::collections::BTreeMap;
use std::collections::btree_map::Iter;
use std::marker::Model;

/// The serials and key IDs that are revoked under one authority, or under all authorities.
#[derive(Drop)]
pub struct Listed<'a, S: Spans> {
    authority: &'a [u8],
    section: &'a AuthorityEntries<S>,
}

impl<'a, S: Spans> Model for Listed<'a, S> {
    ghost use Rattle.krl_entries.specs.Revocations.{Section};
    ghost use Rattle.krl_entries.specs.AuthorityEntries.{section_of};

    ghost Value = { Section };

    ghost view = { λ listed. section_of S.spans (listed.authority.now, listed.section.now) };
}

impl<'a, S: Spans> Listed<'a, S> {
    ghost use Rattle.krl_entries.specs.AuthorityEntries.{section_of};

    // Borrows the section of an authority.
    pub(crate) fn new(authority: &'a [u8], section: &'a AuthorityEntries<S>) -> Listed<'a, S>
        ensures { result ≡ section_of S.spans (authority.now, section.now) }
    {
        Listed { authority, section }
    }

    /// The bytes of the authority, empty for all authorities.
    pub fn authority(&self) -> &'a [u8]
        ensures { result.now ≡ self.now.authority }
    {
        self.authority
    }

    /// The serials, as a set.
    pub fn spans(&self) -> &'a S
        ensures { S.spans result.now ≡ self.now.spans }
    {
        &self.section.spans
    }

    /// How many key IDs there are.
    pub fn ids(&self) -> usize
        ensures { result ≡ length self.now.ids }
    {
        self.section.ids.len()
    }

    /// The key ID at an index below `ids()`, in the order of their bytes. For a loop over all of
    /// them use `iter_ids`.
    pub fn id_at(&self, index: usize) -> &'a [u8]
        requires { index < length self.now.ids }
        ensures { slice_get self.now.ids index ≡ Some result.now }
    {
        self.section.ids.at(index)
    }

    /// An iterator over the key IDs, in the order of their bytes.
    pub fn iter_ids(&self) -> Texts<'a>
        ensures { result ≡ self.now.ids }
    {
        self.section.ids.iter()
    }
}

/// An iterator over the sections. The section for all authorities comes first, then the others in
/// the order of their authorities' bytes. Contracts see the list of the sections that are left.
#[derive(Drop)]
pub struct Authorities<'a, S: Spans> {
    sections: Iter<'a, Vec<u8>, AuthorityEntries<S>>,
}

impl<'a, S: Spans> Model for Authorities<'a, S> {
    ghost use Rattle.std.specs.Prelude.{List};
    ghost use Rattle.krl_entries.specs.Revocations.{Section};
    ghost use Rattle.krl_entries.specs.AuthorityEntries.{sections_of, named_sections};

    ghost Value = { List Section };

    ghost view = { λ authorities. sections_of S.spans (named_sections authorities.sections) };
}

impl<'a, S: Spans> Authorities<'a, S> {
    ghost use Rattle.krl_entries.specs.AuthorityEntries.{sections_of, named_sections};

    // An iterator over the authorities whose sections are in a map.
    pub(crate) fn over(map: &'a BTreeMap<Vec<u8>, AuthorityEntries<S>>) -> Authorities<'a, S>
        ensures { result ≡ sections_of S.spans (named_sections map.now.entries) }
    {
        Authorities {
            sections: map.iter(),
        }
    }
}

impl<'a, S: Spans> Iterator for Authorities<'a, S> {
    ghost use Rattle.std.specs.Iterator.{YieldsFirst, item_count};

    type Item = Listed<'a, S>;

    ghost next_gives = { YieldsFirst (λ authorities. authorities) };

    ghost remaining = { item_count (λ authorities. authorities) };

    fn next(&mut self) -> Option<Listed<'a, S>> {
        let (authority, section) = self.sections.next()?;
        Some(Listed::new(authority.as_slice(), section))
    }
}
