//! The revocations of a list that is read to its end.

ghost use Rattle.std.specs.Prelude.{◌≡◌, None, OnErr, OnOk};
ghost use Rattle.krl_entries.specs.Changes.{IsOneChange};
ghost use Rattle.krl_entries.specs.Gathered.{AddsUnder, HasPlace, IsAt, whole};
ghost use Rattle.krl_entries.specs.AuthorityEntries.{apart_of};
ghost use Rattle.krl_entries.specs.Revocations.{IsOrderly, nothing};

use crate::addition::Addition;
use crate::authority_entries::Apart;
use crate::revocations::Revocations;
use crate::store::Store;
use serial_set::Spans;
use std::alloc::{AllocError, Global};
use std::marker::Model;

/// The revocations of a list that is read to its end. The section of the current authority is kept
/// apart, so it is searched for once for each authority in the list, not once for each entry.
#[derive(Drop)]
pub struct Gathered<S: Spans> {
    alloc: Global,
    rest: Revocations<S>,
    apart: Option<Apart<S>>,
}

impl<S: Spans> Model for Gathered<S> {
    ghost use Rattle.krl_entries.specs.Gathered.{Gathered, HasPlace, name_of, whole};
    ghost use Rattle.krl_entries.specs.AuthorityEntries.{apart_of};

    ghost Value = { Gathered };

    ghost view = { λ g. record {
      contents = whole (apart_of S.spans g.apart) g.rest;
      apart = name_of (apart_of S.spans g.apart);
    } };

    ghost invariant = { λ g. HasPlace (apart_of S.spans g.apart) g.rest };
}

impl<S: Spans> Gathered<S> {
    /// No revocations yet. Allocates nothing.
    pub fn new(alloc: Global) -> Gathered<S>
        ensures nothing { result.contents ≡ nothing }
        ensures none { result.apart ≡ None }
    {
        Gathered {
            alloc,
            rest: Revocations::new(alloc),
            apart: None,
        }
    }

    /// Returns all revocations.
    pub fn into_held(self) -> Revocations<S>
        ensures { result ≡ self.contents }
    {
        let Gathered {
            alloc: _alloc,
            mut rest,
            mut apart,
        } = self;
        settle(&mut rest, &mut apart);
        rest
    }

    // Adds under an authority. No section of another authority is kept apart.
    fn put(&mut self, authority: &[u8], addition: Addition<'_>) -> Result<(), AllocError>
        requires one { IsOneChange addition }
        requires at { IsAt self.old authority.now }
        ensures adds { OnOk result
            (AddsUnder addition.entry authority.now self.old.contents self.new.contents) }
        ensures refused { OnErr result (self.new ≡ self.old) }
        ensures at { IsAt self.new authority.now }
        ensures orderly { IsOrderly self.old.contents }
    {
        let _rest = self.rest.in_order();
        if let Some(apart) = &mut self.apart {
            return apart.section.add(self.alloc, addition);
        }
        self.apart = self.rest.take(authority, addition)?;
        Ok(())
    }
}

// Puts the section that is kept apart back in its place.
fn settle<S: Spans>(rest: &mut Revocations<S>, apart: &mut Option<Apart<S>>)
    requires { HasPlace (apart_of S.spans apart.old) rest.old }
    ensures whole { rest.new ≡ whole (apart_of S.spans apart.old) rest.old }
    ensures none { apart.new ≡ None }
{
    if let Some(apart) = apart.take() {
        rest.put_back(apart);
    }
}

impl<S: Spans> Store for Gathered<S> {
    ghost use Rattle.krl_entries.specs.Gathered.{IsAt};
    ghost use Rattle.krl_entries.specs.Scope.{all};

    ghost contents = { λ gathered. gathered.contents };

    ghost scope = { λ _. all };

    ghost is_at = { IsAt };

    fn may_have_in_scope(&self, _authority: &[u8], _lo: u64, _hi: u64) -> bool {
        true
    }

    fn out_of_scope(&self, _authority: &[u8], _serials: &[u8]) -> usize {
        0
    }

    fn leave(&mut self) {
        settle(&mut self.rest, &mut self.apart);
    }

    fn stored_comment<'a>(&self, comment: &'a [u8]) -> &'a [u8] {
        comment
    }

    #[inline(always)]
    fn store(&mut self, authority: &[u8], addition: Addition<'_>) -> Result<(), AllocError> {
        if !addition.is_key() {
            return self.put(authority, addition);
        }
        settle(&mut self.rest, &mut self.apart);
        self.rest.add(authority, addition)
    }
}
