//! The findings: a store that takes from a list what the questions are about.

ghost use Rattle.std.specs.Prelude.{◌≡◌, ◌↔◌, ◌+◌, ◌≤◌, ◌∷◌, [], ℕ, IfOk, IsTrue, OnOk, ⊤};
ghost use Rattle.serial_set.specs.BitRuns.{IsInterval};
ghost use Rattle.krl_entries.specs.Named.{item_name};
ghost use Rattle.krl_entries.specs.Revocations.{IsStoredAtMost, held};
ghost use Rattle.krl_types.specs.Entry.{RangeEntry};
ghost use Rattle.krl_types.specs.Item.{IsItem};
ghost use Rattle.krl_queries.specs.Questions.{asked_in};
ghost use Rattle.krl_entries.specs.Scope.{HoldsOnlyTopics, IsTopic, MeansMoreInScope};

use crate::key_hashes::asks_hash;
use crate::questions::Questions;
use crate::topics::{count_skipped, first_serial, may_have};
use krl_entries::{Addition, Store};
use krl_types::ItemKind;
use serial_set::{Span, Spans};
use sha1::Sha1;
use sha2::Sha256;
use ssh_wire::array_of;
use std::alloc::AllocError;

impl<S: Spans> Questions<S> {
    // Takes the serials of a span, from the first one that is asked about.
    fn store_span(&mut self, authority: &[u8], span: Span) -> Result<(), AllocError>
        requires { IsInterval span }
        ensures means { OnOk result (MeansMoreInScope (asked_in self.old) self.old.found
            self.new.found (RangeEntry authority.now span.lo span.hi ∷ [])) }
        ensures topics { self.new.topics ≡ self.old.topics }
        ensures within { HoldsOnlyTopics self.old.topics self.old.found
            → HoldsOnlyTopics self.new.topics self.new.found }
        ensures held { held self.new.found ≤ held self.old.found + 1 }
        ensures stored { (n : ℕ)
            → IsStoredAtMost authority.now self.old.found n
            → IsStoredAtMost authority.now self.new.found n }
    {
        match first_serial(&self.topics, authority, span.lo, span.hi) {
            None => Ok(()),
            Some(first) => self.found.add_serials(authority, first, span.hi),
        }
    }

    // Whether an item is asked about, a key ID under an authority. Computes the hashes of the keys
    // that are asked about at the first hash.
    fn asks(&mut self, authority: &[u8], kind: ItemKind, item: &[u8]) -> Result<bool, AllocError>
        requires { IsItem kind item.now }
        ensures asked { IfOk result (λ asked. IsTrue asked
            ↔ IsTopic self.old.topics (item_name kind authority.now item.now)) }
        ensures same { self.new ≡ self.old }
    {
        match kind {
            ItemKind::Id => Ok(self.topics.has_id(authority, item)),
            ItemKind::Key => Ok(self.topics.has_blob(item)),
            ItemKind::Sha1 => asks_hash::<Sha1, S, 20>(
                &self.topics,
                &mut self.has_sha1s,
                &mut self.sha1s,
                &array_of(item),
            ),
            ItemKind::Sha256 => asks_hash::<Sha256, S, 32>(
                &self.topics,
                &mut self.has_sha256s,
                &mut self.sha256s,
                &array_of(item),
            ),
        }
    }
}

impl<S: Spans> Store for Questions<S> {
    ghost use Rattle.krl_queries.specs.Questions.{asked_in};

    ghost contents = { λ questions. questions.found };

    ghost scope = { λ questions. asked_in questions };

    ghost is_at = { λ _ _. ⊤ };

    fn leave(&mut self) {}

    fn stored_comment<'a>(&self, _comment: &'a [u8]) -> &'a [u8] {
        &[]
    }

    fn may_have_in_scope(&self, authority: &[u8], lo: u64, hi: u64) -> bool {
        may_have(&self.topics, authority, lo, hi)
    }

    fn out_of_scope(&self, authority: &[u8], serials: &[u8]) -> usize {
        count_skipped(&self.topics, authority, serials)
    }

    #[inline(always)]
    fn store(&mut self, authority: &[u8], addition: Addition<'_>) -> Result<(), AllocError> {
        match addition {
            Addition::Serials(near) => {
                for span in near {
                    self.store_span(authority, *span)?;
                }
                Ok(())
            }
            Addition::Item(kind, item) => {
                let asked = self.asks(authority, kind, item)?;
                if !asked {
                    return Ok(());
                }
                self.found.add(authority, addition)
            }
        }
    }
}
