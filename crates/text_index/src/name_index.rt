//! Which lines have a name.

ghost use Rattle.std.specs.Prelude.{◌≡◌, [], IfOk, OnOk, ◌++◌, ◌∷◌};
ghost use Rattle.krl_entries.specs.Canonical.{entries_in};
ghost use Rattle.krl_entries.specs.Facts.{fact_of};
ghost use Rattle.krl_entries.specs.Named.{item_name, named};
ghost use Rattle.krl_entries.specs.Tested.{some_names};
ghost use Rattle.krl_fingerprints.specs.Facts.{fact_entries};
ghost use Rattle.krl_types.specs.Naming.{Name as NameOf, SerialOf};
ghost use Rattle.text_index.specs.NameIndex.{AddsNames, Puts, item_key, numbers, numbers_at};
ghost use Rattle.text_index.specs.Postings.{sought_name};

use crate::fronts::common_front;
use crate::posting::{Posting, Sought, What};
use krl_entries::{Fact, Name, Revocations};
use krl_types::ItemKind;
use sha1::Sha1;
use sha2::{Digest, Sha256};
use span_sets::Held;
use ssh_wire::Bytes;
use std::alloc::{AllocError, Global};
use std::collections::BTreeMap;
use std::marker::Model;

/// A map to lines from what they name. An item is under the first eight bytes of its SHA-256, and
/// serial numbers are under the front that they have in common. Numbers are compared faster than the
/// bytes of items, of which many begin alike.
#[derive(Drop)]
pub struct NameIndex {
    pub(crate) places: BTreeMap<u64, Vec<Posting>>,
}

impl Model for NameIndex {
    ghost use Rattle.text_index.specs.Places.{Places};

    ghost Value = { Places };

    ghost view = { λ index. record { entries = index.places.entries } };
}

impl NameIndex {
    // No lines. Allocates nothing.
    pub(crate) fn new(alloc: Global) -> NameIndex
        ensures { (name : NameOf) → numbers result name ≡ [] }
    {
        NameIndex {
            places: BTreeMap::new(alloc),
        }
    }

    // Adds the line with this number, which names what is held.
    pub(crate) fn add(
        &mut self,
        alloc: Global,
        line: usize,
        held: &Revocations<Held>,
    ) -> Result<(), AllocError>
        ensures { OnOk result
            (AddsNames line (some_names (entries_in held.now)) self.old self.new) }
    {
        'facts: for fact in held.facts() {
            self.add_fact(alloc, line, fact)?;
        }
        Ok(())
    }

    // Adds the line with this number, which names what a fact says.
    fn add_fact(&mut self, alloc: Global, line: usize, fact: Fact<'_>) -> Result<(), AllocError>
        ensures { OnOk result
            (AddsNames line (some_names (fact_entries (fact_of fact.entry))) self.old self.new) }
    {
        match fact {
            Fact::Authority(_) => Ok(()),
            Fact::Serials(authority, span) => {
                let posting = Posting::new(alloc, line, authority, What::Serials(span))?;
                self.put(alloc, common_front(span.lo, span.hi), posting)
            }
            Fact::Item(kind, authority, bytes) => {
                let copy = Vec::from_slice(alloc, bytes)?;
                let what = What::Item(kind, Bytes::from_vec(copy));
                let posting = Posting::new(alloc, line, authority, what)?;
                self.put(alloc, item_key(bytes), posting)
            }
        }
    }

    // Puts a posting behind those that the key has.
    fn put(&mut self, alloc: Global, key: u64, posting: Posting) -> Result<(), AllocError>
        ensures { OnOk result (Puts key posting self.old self.new) }
    {
        if let Some(postings) = self.places.get_mut(&key) {
            return push(postings, posting);
        }
        let mut postings = Vec::with_capacity(alloc, 1)?;
        push(&mut postings, posting)?;
        self.places.insert(key, postings)?;
        Ok(())
    }

    // The numbers of the lines that have a name.
    pub(crate) fn find(&self, alloc: Global, name: Name<'_>) -> Result<Vec<usize>, AllocError>
        ensures { IfOk result (λ lines. lines.items ≡ numbers self.now (named name.entry)) }
    {
        match name {
            Name::Serial(authority, serial) => self.find_serial(alloc, authority, serial),
            Name::Id(authority, id) => self.find_item(alloc, ItemKind::Id, authority, id),
            Name::Key(blob) => self.find_item(alloc, ItemKind::Key, &[], blob),
            Name::Sha1(blob) => self.find_item(alloc, ItemKind::Sha1, &[], &Sha1::digest(blob)),
            Name::Sha256(blob) => {
                self.find_item(alloc, ItemKind::Sha256, &[], &Sha256::digest(blob))
            }
        }
    }

    // The numbers of the lines that name an item.
    fn find_item(
        &self,
        alloc: Global,
        kind: ItemKind,
        authority: &[u8],
        item: &[u8],
    ) -> Result<Vec<usize>, AllocError>
        ensures { IfOk result (λ lines.
            lines.items ≡ numbers self.now (item_name kind authority.now item.now)) }
    {
        let mut lines = Vec::new(alloc);
        self.gather(
            item_key(item),
            Sought::Item(kind, authority, item),
            &mut lines,
        )?;
        Ok(lines)
    }

    // The numbers of the lines that name a serial number: those at each of its fronts.
    fn find_serial(
        &self,
        alloc: Global,
        authority: &[u8],
        serial: u64,
    ) -> Result<Vec<usize>, AllocError>
        ensures { IfOk result (λ lines.
            lines.items ≡ numbers self.now (SerialOf authority.now serial)) }
    {
        let mut lines = Vec::new(alloc);
        let mut front = serial;
        let mut bits = 64u64;
        'cutting: loop {
            self.gather(front, Sought::Serial(authority, serial), &mut lines)?;
            if front == 0 || bits == 0 {
                return Ok(lines);
            }
            front /= 2;
            bits -= 1;
        }
    }

    // Adds the numbers of the lines that have the name and are at this key.
    fn gather(&self, key: u64, sought: Sought<'_>, lines: &mut Vec<usize>) -> Result<(), AllocError>
        ensures { OnOk result (lines.new.items
            ≡ lines.old.items ++ numbers_at self.now key (sought_name sought.entry)) }
    {
        let Some(postings) = self.places.get(&key) else {
            return Ok(());
        };
        'postings: for posting in postings {
            if posting.names(sought) {
                lines.push(posting.line)?;
            }
        }
        Ok(())
    }
}

// The number under which an item is kept.
fn item_key(item: &[u8]) -> u64
    ensures { result ≡ item_key item.now }
{
    let print = Sha256::digest(item);
    u64::from_be_bytes([
        print[0], print[1], print[2], print[3], print[4], print[5], print[6], print[7],
    ])
}

// Puts a posting behind others.
fn push(postings: &mut Vec<Posting>, posting: Posting) -> Result<(), AllocError>
    ensures { OnOk result (postings.new.items ≡ postings.old.items ++ posting ∷ []) }
{
    postings.push(posting)?;
    Ok(())
}
