//! The facts about all stored entries, one after another.
ghost use Rattle.std.specs.Prelude.{◌≡◌};

use crate::listed::Authorities;
use crate::serials::Serials;
use crate::texts::Texts;
use krl_types::ItemKind;
use serial_set::{Span, Spans};
use std::marker::Model;

/// A fact about stored entries. An authority is given by its bytes, empty for all authorities.
#[derive(Clone, Copy)]
pub enum Fact<'a> {
    /// The authority of the serial numbers and key IDs that follow.
    Authority(&'a [u8]),
    /// Serial numbers under an authority.
    Serials(&'a [u8], Span),
    /// A key ID under an authority. A key, or a hash of one, has an empty authority.
    Item(ItemKind, &'a [u8], &'a [u8]),
}

/// An iterator over facts: each authority with its serial numbers and its key IDs, then keys, and
/// then hashes. Contracts see the list of the facts that are left.
#[derive(Drop)]
pub struct Facts<'a, S: Spans> {
    // The current authority, and the rest of its section.
    authority: &'a [u8],
    runs: Serials<'a, S>,
    ids: Texts<'a>,
    // Everything after that section.
    sections: Authorities<'a, S>,
    keys: Texts<'a>,
    sha1s: Texts<'a>,
    sha256s: Texts<'a>,
}

impl<'a, S: Spans> Model for Facts<'a, S> {
    ghost use Rattle.std.specs.Prelude.{List};
    ghost use Rattle.krl_entries.specs.Facts.{Fact, facts_left};
    ghost use Rattle.krl_entries.specs.Revocations.{revocations_of};

    ghost Value = { List Fact };

    ghost view = { λ facts. facts_left facts.authority.now facts.runs facts.ids
        (revocations_of facts.sections facts.keys facts.sha1s facts.sha256s) };
}

impl<'a, S: Spans> Facts<'a, S> {
    ghost use Rattle.krl_entries.specs.Facts.{facts_of};
    ghost use Rattle.krl_entries.specs.Revocations.{revocations_of};

    // An iterator over the facts about these sections, keys and hashes.
    pub(crate) fn over(
        sections: Authorities<'a, S>,
        keys: Texts<'a>,
        sha1s: Texts<'a>,
        sha256s: Texts<'a>,
    ) -> Facts<'a, S>
        ensures { result ≡ facts_of (revocations_of sections.entry keys.entry sha1s.entry
            sha256s.entry) }
    {
        Facts {
            authority: &[],
            runs: Serials::none(),
            ids: Texts::few(&[]),
            sections,
            keys,
            sha1s,
            sha256s,
        }
    }
}

impl<'a, S: Spans> Iterator for Facts<'a, S> {
    ghost use Rattle.std.specs.Iterator.{YieldsFirstBy, item_count};
    ghost use Rattle.krl_entries.specs.Facts.{fact_of};

    type Item = Fact<'a>;

    ghost next_gives = { YieldsFirstBy fact_of (λ facts. facts) };

    ghost remaining = { item_count (λ facts. facts) };

    fn next(&mut self) -> Option<Fact<'a>> {
        if let Some(span) = self.runs.next() {
            return Some(Fact::Serials(self.authority, span));
        }
        if let Some(id) = self.ids.next() {
            return Some(Fact::Item(ItemKind::Id, self.authority, id));
        }
        if let Some(listed) = self.sections.next() {
            self.authority = listed.authority();
            self.runs = Serials::of(listed.spans());
            self.ids = listed.iter_ids();
            return Some(Fact::Authority(self.authority));
        }
        if let Some(blob) = self.keys.next() {
            return Some(Fact::Item(ItemKind::Key, &[], blob));
        }
        if let Some(hash) = self.sha1s.next() {
            return Some(Fact::Item(ItemKind::Sha1, &[], hash));
        }
        if let Some(hash) = self.sha256s.next() {
            return Some(Fact::Item(ItemKind::Sha256, &[], hash));
        }
        None
    }
}
