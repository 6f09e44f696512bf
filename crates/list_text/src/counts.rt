//! The number of facts that were printed.

ghost use Rattle.std.specs.Prelude.{◌≡◌};
ghost use Rattle.list_text.specs.Counts.{counted};
ghost use Rattle.list_text.specs.Facts.{fact_of};

use crate::fact::Fact;
use krl_entries::Fact as HeldFact;
use krl_types::ItemKind;

/// How many facts were printed. Each number is at most 2^64-1, and that of serial numbers 2^128-1,
/// which no list reaches.
#[derive(Clone, Copy)]
pub struct Counts {
    /// Lists.
    pub lists: u64,
    /// Certificate authorities, in each list. All authorities count as one.
    pub authorities: u64,
    /// Entries: lines of the text that are neither about a list nor an authority.
    pub entries: u64,
    /// Serial numbers. Each certificate authority may have 2^64-1 of them.
    pub serials: u128,
    /// Key IDs.
    pub ids: u64,
    /// Keys.
    pub keys: u64,
    /// Hashes of keys.
    pub hashes: u64,
}

impl Counts {
    /// Nothing.
    pub const NONE: Counts = Counts {
        lists: 0,
        authorities: 0,
        entries: 0,
        serials: 0,
        ids: 0,
        keys: 0,
        hashes: 0,
    };

    /// Counts a fact.
    #[inline(always)]
    pub fn add(&mut self, fact: Fact<'_>)
        ensures { self.new ≡ counted self.old (fact_of fact.entry) }
    {
        match fact {
            Fact::List(..) => {
                self.lists = self.lists.saturating_add(1);
                return;
            }
            Fact::Held(HeldFact::Authority(_)) => {
                self.authorities = self.authorities.saturating_add(1);
                return;
            }
            Fact::Held(HeldFact::Serials(_, span)) => {
                let between = u128::from(span.hi.saturating_sub(span.lo));
                self.serials = self.serials.saturating_add(between).saturating_add(1);
            }
            Fact::Held(HeldFact::Item(ItemKind::Id, ..)) => self.ids = self.ids.saturating_add(1),
            Fact::Held(HeldFact::Item(ItemKind::Key, ..)) => {
                self.keys = self.keys.saturating_add(1);
            }
            Fact::Held(HeldFact::Item(ItemKind::Sha1 | ItemKind::Sha256, ..)) => {
                self.hashes = self.hashes.saturating_add(1);
            }
        }
        self.entries = self.entries.saturating_add(1);
    }
}
