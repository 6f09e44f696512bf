//! The field store: it stores what the fields of a list name.

ghost use Rattle.std.specs.Prelude.{◌≡◌, ◌+◌, ◌%◌, ◌^◌, ◌<◌, ◌≤◌, ◌∷◌, [], ℕ, List, None, OnErr};
ghost use Rattle.std.specs.Prelude.{All, OnOk, false, length};
ghost use Rattle.serial_set.specs.BitRuns.{IsInterval};
ghost use Rattle.serial_set.specs.Near.{AreNear};
ghost use Rattle.krl_entries.specs.Revocations.{nothing};
ghost use Rattle.krl_types.specs.Entry.{Entry, SerialsEntry, RangeEntry};
ghost use Rattle.krl_types.specs.Item.{IsItem, item_entry};
ghost use Rattle.krl_types.specs.Naming.{SerialOf};
ghost use Rattle.krl_entries.specs.Scope.{AreOutOfScope, InScope, all};
ghost use Rattle.krl_entries.specs.Scope.{stored_comment};
ghost use Rattle.krl_format.specs.Front.{Passes, start};
ghost use Rattle.krl_core.specs.FieldStore.{Adds, Closes, GrowsAtMost, InStep, StoresEntries};
ghost use Rattle.krl_core.specs.FieldStore.{StoresAtMost};
ghost use Rattle.krl_core.specs.FieldStore.{StoresBits, StoresField, ChangesOnlyEntries};
ghost use Rattle.krl_core.specs.FieldStore.{StoresInScope, Skips, StoresNoMore, TakesByte};
ghost use Rattle.krl_entries.specs.Changes.{run_entries};
ghost use Rattle.krl_core.specs.FieldStore.{held_with_open, stored_header};
ghost use Rattle.krl_format.specs.Memory.{NeedsMemory};

use krl_entries::{Addition, Revocations, Store};
use krl_format::{Field, Header, Place};
use krl_types::ItemKind;
use serial_set::{BitRuns, Span, Spans, count_near};
use ssh_wire::{Bytes, byte_of, u64_of};
use std::alloc::{AllocError, Global};
use std::marker::Model;

/// The parts of a list that are stored while it is read.
#[derive(Drop)]
pub struct FieldStore<T: Store> {
    pub(crate) version: u64,
    pub(crate) date: u64,
    comment: Vec<u8>,
    // the authority in force, empty for all authorities
    pub(crate) authority: Vec<u8>,
    pub(crate) store: T,
    pub(crate) bitmap: BitRuns,
}

impl<T: Store> Model for FieldStore<T> {
    ghost use Rattle.krl_core.specs.FieldStore.{FieldStore};

    ghost Value = { FieldStore };

    ghost view = { λ stored. record {
      header = record {
        version = stored.version;
        date = stored.date;
        comment = stored.comment.items;
      };
      authority = stored.authority.items;
      contents = T.contents stored.store;
      scope = T.scope stored.store;
      bitmap = stored.bitmap;
    } };

    ghost invariant = { λ stored. T.is_at stored.store stored.authority.items };
}

impl<T: Store> FieldStore<T> {
    /// A field store that has stored nothing yet.
    pub fn new(alloc: Global, store: T) -> Self
        requires { T.contents store ≡ nothing }
        ensures scope { result.scope ≡ T.scope store }
        ensures stores { StoresEntries result [] }
        ensures start { (result.authority ≡ [])
            × (result.header ≡ stored_header result.scope start.header) }
        ensures in_step { result.bitmap.pending ≡ None }
        ensures held { held_with_open result ≡ 0 }
        ensures stored { StoresAtMost result 0 }
        ensures within { StoresInScope result }
    {
        let mut store = store;
        store.leave();
        FieldStore {
            version: 0,
            date: 0,
            comment: Vec::new(alloc),
            authority: Vec::new(alloc),
            store,
            bitmap: BitRuns::new(0, 0),
        }
    }

    /// The header and the store.
    pub fn done(self) -> (Header, T)
        ensures header { result.0 ≡ self.header }
        ensures contents { T.contents result.1 ≡ self.contents }
        ensures scope { T.scope result.1 ≡ self.scope }
    {
        let header = Header {
            version: self.version,
            date: self.date,
            comment: Bytes::from_vec(self.comment),
        };
        (header, self.store)
    }

    /// Stores what a field names. The field is the expected one, and passes its judgement.
    #[inline(always)]
    pub fn store_field(&mut self, place: Place, field: &[u8], next: Place) -> Result<(), AllocError>
        requires passes { Passes place field.now next }
        requires in_step { InStep place self.old.bitmap }
        ensures stores { OnOk result (StoresField place field.now next self.old self.new) }
        ensures needs { OnErr result (NeedsMemory place field.now) }
        ensures grows { GrowsAtMost (length field.now) self.old self.new }
    {
        match place {
            Place::Field { field: at, .. } => {
                match at {
                    Field::Version => self.version = u64_of(field),
                    Field::Date => self.date = u64_of(field),
                    _ => {}
                }
                Ok(())
            }
            Place::Content {
                field: Field::Comment,
                ..
            } => self.set_comment(field),
            Place::Content {
                field: Field::Authority,
                ..
            } => self.set_authority(field),
            Place::Content { .. } => Ok(()),
            Place::SectionType { .. } => {
                self.store.leave();
                self.authority.clear();
                Ok(())
            }
            Place::Serial { .. } => self.add_serial(u64_of(field)),
            Place::RangeMax { min, .. } => self.add_range(min, u64_of(field)),
            Place::BitmapSize {
                offset,
                room_before,
                ..
            } => {
                self.bitmap = BitRuns::new(offset, room_before - 4);
                Ok(())
            }
            Place::Byte { room_before, .. } => self.add_bits(byte_of(field), room_before == 1),
            Place::Item { kind, .. } => self.add_item(kind, field),
            Place::SectionLength { .. }
            | Place::SubsectionType { .. }
            | Place::SubsectionLength { .. }
            | Place::ItemLength { .. }
            | Place::RangeMin { .. }
            | Place::Offset { .. } => Ok(()),
        }
    }

    // Stores the comment of the header, if the store wants it.
    fn set_comment(&mut self, comment: &[u8]) -> Result<(), AllocError>
        ensures set { OnOk result (self.new ≡ record self.old {
          header = record self.old.header { comment = stored_comment self.old.scope comment.now };
        }) }
        ensures some { OnErr result (0 < length comment.now) }
        ensures grows { (n : ℕ) → GrowsAtMost n self.old self.new }
    {
        self.comment.clear();
        self.comment
            .extend_from_slice(self.store.stored_comment(comment))
    }

    // Sets the authority of the certificates that follow.
    pub(crate) fn set_authority(&mut self, authority: &[u8]) -> Result<(), AllocError>
        ensures set { OnOk result (self.new ≡ record self.old { authority = authority.now }) }
        ensures some { OnErr result (0 < length authority.now) }
        ensures grows { GrowsAtMost (length authority.now) self.old self.new }
    {
        self.store.leave();
        self.authority.clear();
        self.authority.extend_from_slice(authority)
    }

    /// Adds a serial number under the authority in force. The number 0 names nothing.
    pub fn add_serial(&mut self, serial: u64) -> Result<(), AllocError>
        ensures adds { OnOk result
            (Adds self.old (SerialsEntry self.old.authority (serial ∷ []) ∷ []) self.new) }
        ensures some { OnErr result (0 < serial) }
        ensures held { held_with_open self.new ≤ held_with_open self.old + 1 }
        ensures stored { StoresNoMore self.old self.new }
    {
        if serial == 0 {
            return Ok(());
        }
        self.add_span(serial, serial)
    }

    // Adds the serial numbers of a range, which may begin at 0.
    fn add_range(&mut self, min: u64, max: u64) -> Result<(), AllocError>
        requires { min ≤ max }
        ensures adds { OnOk result
            (Adds self.old (RangeEntry self.old.authority min max ∷ []) self.new) }
        ensures some { OnErr result (0 < max) }
        ensures grows { GrowsAtMost 1 self.old self.new }
    {
        if max == 0 {
            return Ok(());
        }
        self.add_span(min.max(1), max)
    }

    // Adds the serial numbers from `lo` to `hi` under the authority in force.
    fn add_span(&mut self, lo: u64, hi: u64) -> Result<(), AllocError>
        requires from_one { 0 < lo }
        requires ordered { lo ≤ hi }
        ensures adds { OnOk result
            (Adds self.old (RangeEntry self.old.authority lo hi ∷ []) self.new) }
        ensures held { held_with_open self.new ≤ held_with_open self.old + 1 }
        ensures stored { StoresNoMore self.old self.new }
        ensures rest { ChangesOnlyEntries self.old self.new }
    {
        self.add_near(&[Span { lo, hi }])
    }

    // Adds spans that are near each other, under the authority in force.
    fn add_near(&mut self, near: &[Span]) -> Result<(), AllocError>
        requires some { 0 < length near.now }
        requires intervals { All IsInterval near.now }
        requires near { AreNear near.now }
        ensures adds { OnOk result
            (Adds self.old (run_entries self.old.authority near.now) self.new) }
        ensures held { held_with_open self.new ≤ held_with_open self.old + length near.now }
        ensures stored { StoresNoMore self.old self.new }
        ensures rest { ChangesOnlyEntries self.old self.new }
    {
        self.store
            .store(self.authority.as_slice(), Addition::Serials(near))
    }

    // Adds a key, a hash, or a key ID under the authority in force.
    pub(crate) fn add_item(&mut self, kind: ItemKind, item: &[u8]) -> Result<(), AllocError>
        requires { IsItem kind item.now }
        ensures adds { OnOk result
            (Adds self.old (item_entry kind self.old.authority item.now ∷ []) self.new) }
        ensures grows { GrowsAtMost (length item.now) self.old self.new }
    {
        self.store
            .store(self.authority.as_slice(), Addition::Item(kind, item))
    }

    // Feeds a byte to the current bitmap, and adds the runs that it finishes. The last byte also
    // finishes the open run.
    fn add_bits(&mut self, byte: u8, last: bool) -> Result<(), AllocError>
        requires { TakesByte self.old.bitmap byte }
        ensures stores { OnOk result (StoresBits byte last self.old self.new) }
        ensures grows { GrowsAtMost 1 self.old self.new }
    {
        let finished = self.bitmap.take(byte);
        self.add_spans(finished.as_slice())?;
        if last { self.close() } else { Ok(()) }
    }

    // Most bytes finish spans of only one window, which are added together.
    pub(crate) fn add_spans(&mut self, spans: &[Span]) -> Result<(), AllocError>
        requires { All IsInterval spans.now }
        ensures adds { OnOk result
            (Adds self.old (run_entries self.old.authority spans.now) self.new) }
        ensures held { held_with_open self.new ≤ held_with_open self.old + length spans.now }
        ensures stored { StoresNoMore self.old self.new }
        ensures rest { ChangesOnlyEntries self.old self.new }
    {
        let mut at = 0;
        while at < spans.len() {
            let end = at + count_near(&spans[at..]);
            self.add_near(&spans[at..end])?;
            at = end;
        }
        Ok(())
    }

    /// Whether a serial number from `lo` to `hi` may be in scope under the authority in force.
    pub fn may_have_in_scope(&self, lo: u64, hi: u64) -> bool
        requires { lo ≤ hi }
        ensures { result ≡ false → (s : ℕ) → lo ≤ s → s ≤ hi
            → InScope self.now.scope (SerialOf self.now.authority s) → ⊥ }
    {
        self.store
            .may_have_in_scope(self.authority.as_slice(), lo, hi)
    }

    /// How many bytes at the front are serial numbers, of eight bytes each, that are not in scope
    /// under the authority in force.
    pub fn out_of_scope(&self, serials: &[u8]) -> usize
        ensures within { result ≤ length serials.now }
        ensures whole { result % 8 ≡ 0 }
        ensures out_of_scope { AreOutOfScope self.now.scope self.now.authority serials.now result }
    {
        self.store.out_of_scope(self.authority.as_slice(), serials)
    }

    /// Skips bytes of the current bitmap. The open run ends before them.
    pub fn skip(&mut self, count: u32) -> Result<(), AllocError>
        requires { count ≤ self.old.bitmap.bytes_left }
        ensures skips { OnOk result (Skips count self.old self.new) }
        ensures held { held_with_open self.new ≤ held_with_open self.old }
        ensures stored { StoresNoMore self.old self.new }
    {
        let run = self.bitmap.pending();
        self.bitmap.skip(count);
        match run {
            Some(run) => self.add_span(run.lo, run.hi),
            None => Ok(()),
        }
    }

    // Adds the open run of the bitmap, which is at its end.
    fn close(&mut self) -> Result<(), AllocError>
        ensures closes { OnOk result (Closes self.old self.new) }
        ensures held { held_with_open self.new ≤ held_with_open self.old }
        ensures stored { StoresNoMore self.old self.new }
    {
        if let Some(run) = self.bitmap.pending() {
            self.bitmap = BitRuns::new(0, 0);
            return self.add_span(run.lo, run.hi);
        }
        self.bitmap = BitRuns::new(0, 0);
        Ok(())
    }
}

impl<S: Spans> FieldStore<Revocations<S>> {
    /// The number of stored spans, with the open run as one more.
    pub fn held(&self) -> u128
        requires { self.now.scope ≡ all → held_with_open self.now < 2 ^ 64 }
        ensures value { result ≡ held_with_open self.now }
        ensures scope { self.now.scope ≡ all }
    {
        let open = match self.bitmap.pending() {
            Some(_) => 1,
            None => 0,
        };
        self.store.held() + open
    }
}
