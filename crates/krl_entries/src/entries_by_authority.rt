//! The sections of all authorities.
ghost use Rattle.std.specs.Prelude.{◌≡◌, ◌<◌, [], IfOk, MatchOption, OnErr, OnOk, Some};
ghost use Rattle.std.specs.Prelude.{length, slice_get};
ghost use Rattle.krl_entries.specs.Inserting.{Stands};
ghost use Rattle.krl_entries.specs.Changes.{IsOneChange, AddsTo};
ghost use Rattle.krl_entries.specs.Revocations.{SomeSection};
ghost use Rattle.krl_entries.specs.Gathered.{TakesOut, with_section};
ghost use Rattle.krl_entries.specs.AuthorityEntries.{apart_of, section_of};

use crate::addition::Addition;
use crate::authority_entries::{Apart, AuthorityEntries};
use crate::listed::{Authorities, Listed};
use serial_set::Spans;
use std::alloc::{AllocError, Global};
use std::collections::BTreeMap;
use std::marker::Model;

/// A map from the bytes of each authority to its section. Contracts see the sections in the order
/// of these bytes.
#[derive(Drop)]
pub struct EntriesByAuthority<S: Spans> {
    alloc: Global,
    map: BTreeMap<Vec<u8>, AuthorityEntries<S>>,
}

impl<S: Spans> Model for EntriesByAuthority<S> {
    ghost use Rattle.std.specs.Prelude.{List};
    ghost use Rattle.krl_entries.specs.Revocations.{Section};
    ghost use Rattle.krl_entries.specs.Rising.{RisesBy};
    ghost use Rattle.krl_entries.specs.AuthorityEntries.{name_of, sections_of, named_sections};

    ghost Value = { List Section };

    ghost view = { λ s. sections_of S.spans (named_sections s.map.entries) };

    ghost invariant = { λ s. RisesBy name_of (named_sections s.map.entries) };
}

impl<S: Spans> EntriesByAuthority<S> {
    // No sections. Allocates nothing.
    pub(crate) fn new(alloc: Global) -> EntriesByAuthority<S>
        ensures { result ≡ [] }
    {
        EntriesByAuthority {
            alloc,
            map: BTreeMap::new(alloc),
        }
    }

    // How many authorities there are.
    pub(crate) fn len(&self) -> usize
        ensures { result ≡ length self.now }
    {
        self.map.len()
    }

    // The section of an authority, if it has one.
    pub(crate) fn find(&self, authority: &[u8]) -> Option<&AuthorityEntries<S>>
        ensures { MatchOption result
            (¬ SomeSection (λ section. section.authority ≡ authority.now) self.now)
            (λ section. Stands (λ section. section.authority) self.now
            (section_of S.spans (authority.now, section.now))) }
    {
        self.map.get(authority)
    }

    // The section of the authority at an index. The call visits the sections before it.
    pub(crate) fn at(&self, index: usize) -> Listed<'_, S>
        requires { index < length self.now }
        ensures { slice_get self.now index ≡ Some result }
    {
        let mut iter = self.iter();
        let mut left = index;
        while let Some(listed) = iter.next() {
            if left == 0 {
                return listed;
            }
            left -= 1;
        }
        unreachable!()
    }

    // The authorities, in the order of their bytes.
    pub(crate) fn iter(&self) -> Authorities<'_, S>
        ensures { result ≡ self.now }
    {
        Authorities::over(&self.map)
    }

    // Adds under an authority. A new section is complete before it is inserted.
    pub(crate) fn add(&mut self, authority: &[u8], addition: Addition<'_>) -> Result<(), AllocError>
        requires { IsOneChange addition }
        ensures ok { OnOk result (AddsTo addition.entry authority.now self.old self.new) }
        ensures refused { OnErr result (self.new ≡ self.old) }
    {
        if let Some(section) = self.map.get_mut(authority) {
            return section.add(self.alloc, addition);
        }
        let section = AuthorityEntries::with(self.alloc, addition)?;
        let name = Vec::from_slice(self.alloc, authority)?;
        self.map.insert(name, section)?;
        Ok(())
    }

    // Adds under an authority. If it has a section, that section takes the addition and is taken
    // out, and a section with only the addition stays there.
    pub(crate) fn take(
        &mut self,
        authority: &[u8],
        addition: Addition<'_>,
    ) -> Result<Option<Apart<S>>, AllocError>
        requires { IsOneChange addition }
        ensures ok { IfOk result (λ apart. TakesOut addition.entry authority.now self.old
            (apart_of S.spans apart) self.new) }
        ensures refused { OnErr result (self.new ≡ self.old) }
    {
        if let Some(section) = self.map.get_mut(authority) {
            return section.take(self.alloc, authority, addition);
        }
        let section = AuthorityEntries::with(self.alloc, addition)?;
        let name = Vec::from_slice(self.alloc, authority)?;
        self.map.insert(name, section)?;
        Ok(None)
    }

    // Puts a section that was taken out back in its place.
    pub(crate) fn put_back(&mut self, apart: Apart<S>)
        ensures { self.new ≡ with_section (section_of S.spans (apart.name.items, apart.section))
            self.old }
    {
        let Apart { name, section } = apart;
        if let Some(place) = self.map.get_mut(name.as_slice()) {
            *place = section;
        }
    }
}
