//! The section of one authority.
ghost use Rattle.std.specs.Prelude.{◌≡◌, ℕ, List, MatchResult, IfOk};
ghost use Rattle.krl_entries.specs.Changes.{TakesAddition, IsOneChange, empty_section};
ghost use Rattle.krl_entries.specs.Gathered.{IsTaken};

use crate::addition::Addition;
use crate::ids::Ids;
use serial_set::Spans;
use std::alloc::{AllocError, Global};
use std::mem;

/// The serials and key IDs under an authority, or under all authorities.
#[derive(Drop)]
pub struct AuthorityEntries<S: Spans> {
    pub(crate) spans: S,
    pub(crate) ids: Ids,
}

// A section that is kept apart, with the bytes of its authority.
#[derive(Drop)]
pub(crate) struct Apart<S: Spans> {
    pub(crate) name: Vec<u8>,
    pub(crate) section: AuthorityEntries<S>,
}

impl<S: Spans> AuthorityEntries<S> {
    ghost use Rattle.krl_entries.specs.AuthorityEntries.{apart_of, section_of};

    // A section that holds only the addition.
    pub(crate) fn with(
        alloc: Global,
        addition: Addition<'_>,
    ) -> Result<AuthorityEntries<S>, AllocError>
        requires { IsOneChange addition }
        ensures { (authority : List ℕ) → IfOk result (λ section. TakesAddition addition.entry
            (empty_section authority) (section_of S.spans (authority, section))) }
    {
        let mut section = AuthorityEntries {
            spans: S::empty(alloc)?,
            ids: Ids::new(alloc),
        };
        section.add(alloc, addition)?;
        Ok(section)
    }

    // Adds to the section. If an allocation fails, the section stays unchanged.
    pub(crate) fn add(&mut self, alloc: Global, addition: Addition<'_>) -> Result<(), AllocError>
        requires { IsOneChange addition }
        ensures { (authority : List ℕ) → MatchResult result
            (λ _. TakesAddition addition.entry (section_of S.spans (authority, self.old))
            (section_of S.spans (authority, self.new)))
            (λ _. section_of S.spans (authority, self.new)
            ≡ section_of S.spans (authority, self.old)) }
    {
        match addition {
            Addition::Serials(near) => self.spans.add_near(near),
            Addition::Item(_, text) => {
                self.ids.put(alloc, text)?;
                Ok(())
            }
        }
    }

    // Adds to the section of an authority and takes it out. A section with only the addition stays
    // there.
    pub(crate) fn take(
        &mut self,
        alloc: Global,
        authority: &[u8],
        addition: Addition<'_>,
    ) -> Result<Option<Apart<S>>, AllocError>
        requires { IsOneChange addition }
        ensures { MatchResult result
            (λ apart. IsTaken addition.entry (section_of S.spans (authority.now, self.old))
            (apart_of S.spans apart) (section_of S.spans (authority.now, self.new)))
            (λ _. section_of S.spans (authority.now, self.new)
            ≡ section_of S.spans (authority.now, self.old)) }
    {
        let name = Vec::from_slice(alloc, authority)?;
        let left = AuthorityEntries::with(alloc, addition)?;
        match self.add(alloc, addition) {
            Ok(()) => {
                let section = mem::replace(self, left);
                Ok(Some(Apart { name, section }))
            }
            Err(fault) => Err(fault),
        }
    }
}
