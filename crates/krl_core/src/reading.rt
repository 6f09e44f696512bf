//! Reading a list in one pass, field by field.

ghost use Rattle.std.specs.Prelude.{◌≡◌, ◌+◌, ◌*◌, ◌<◌, ◌≤◌, ◌⊎◌, ℕ, false, true, None, Some, Err};
ghost use Rattle.std.specs.Prelude.{◌≢◌, List, [], IfOk, IfErr, IsTrue, OnOk, length};
ghost use Rattle.ssh_wire.specs.Wire.{IsBytes};
ghost use Rattle.byte_streams.specs.Pull.{Refuses, Takes};
ghost use Rattle.ssh_wire.specs.declared.pull_fault.PullFault.TheVariants as pulls;
ghost use Rattle.krl_types.specs.declared.krl_fault.KrlFault.TheVariants.{NoMemory, Read};
ghost use Rattle.krl_entries.specs.Revocations.{IsOrderly, held, nothing, stored};
ghost use Rattle.krl_format.specs.Front.{HasRoom, Passes, limit};
ghost use Rattle.krl_core.specs.FieldStore.{GrowsAtMost, InStep, StoresField, StoresAtMost};
ghost use Rattle.krl_core.specs.FieldStore.{held_with_open};
ghost use Rattle.krl_format.specs.Place.{can_end, expected};
ghost use Rattle.krl_core.specs.Reading.{Advances, Ends, Follows, HasRead, HoldsInScope, IsBounded};
ghost use Rattle.krl_core.specs.Reading.{IsList, IsReached, IsWhole, IsWholeAs, IsWithinLimit};
ghost use Rattle.krl_core.specs.Reading.{LooksFor, Missed, OfHeader, Refused, Repeats};
ghost use Rattle.krl_core.specs.Reading.{ReportsFailure, Stops, at_its_end, working};
ghost use Rattle.krl_format.specs.Faults.{Says};
ghost use Rattle.krl_format.specs.Memory.{NeedsMemory};
ghost use Rattle.krl_entries.specs.Scope.{all};

use crate::buffered::read_buffered;
use crate::field_store::FieldStore;
use byte_streams::{Pull, Source};
use krl_entries::{Revocations, Store};
use krl_format::{Header, LIMIT, Place};
use krl_types::KrlFault;
use serial_set::Spans;
use std::alloc::{AllocError, Global};
use std::marker::Model;

// A field of at most this many bytes needs no allocation: numbers, lengths and hashes.
const SMALL: usize = 32;

/// A walk reads a list from a reader in one pass, into a store. Beside what its field store stores,
/// it holds only the current field of the list, which in a bitmap is one byte.
#[derive(Drop)]
pub struct Walk<T: Store, R: Source + Drop> {
    pub(crate) pull: Pull<R>,
    place: Place,
    stored: FieldStore<T>,
    // the current field, if it is large
    large: Vec<u8>,
    pub(crate) ended: bool,
    pub(crate) fault: Option<KrlFault>,
}

impl<T: Store, R: Source + Drop> Model for Walk<T, R> {
    ghost use Rattle.krl_core.specs.Reading.{Walk, IsReached as Reached};

    ghost Value = { Walk };

    ghost view = { λ reading. record {
      pull = reading.pull;
      place = reading.place;
      stored = reading.stored;
      ended = reading.ended;
      fault = reading.fault;
    } };

    ghost invariant = { λ reading. Reached (record {
      pull = reading.pull;
      place = reading.place;
      stored = reading.stored;
      ended = reading.ended;
      fault = reading.fault;
    }) };
}

/// A walk that stores all entries of the list.
pub type Reading<S, R> = Walk<Revocations<S>, R>;

impl<S: Spans, R: Source + Drop> Walk<Revocations<S>, R> {
    /// A walk that has read nothing yet. The reader must not have failed before.
    pub fn new(alloc: Global, reader: R) -> Self
        requires { R.has_failed reader ≡ false }
        ensures start { (text : List ℕ) → R.left reader ≡ Some text → HasRead text [] result }
        ensures bounds { IsBounded result.pull result.stored }
        ensures untaken { result.pull.taken ≡ 0 }
        ensures faultless { result.fault ≡ None }
        ensures all { result.stored.scope ≡ all }
    {
        Walk::over(alloc, Revocations::new(alloc), reader)
    }

    /// The number of spans that are stored so far, with the open run of a bitmap as one more.
    pub fn held(&self) -> u128
        ensures value { result ≡ held_with_open self.now.stored }
        ensures four_a_byte { result ≤ 4 * self.now.pull.taken }
        ensures stored { StoresAtMost self.now.stored self.now.pull.taken }
    {
        self.stored.held()
    }

    /// The header, the stored entries and the reader, after a step that returned false.
    pub fn done(self) -> (Header, Revocations<S>, R)
        requires { self.ended ≡ true }
        ensures whole { (text : List ℕ) → (fields : List (List ℕ)) → HasRead text fields self
            → IsWhole text result.0 result.1 }
        ensures list { (text : List ℕ) → (fields : List (List ℕ)) → HasRead text fields self
            → IsList text result.0 result.1 }
        ensures held { held result.1 ≤ 4 * limit }
        ensures stored { stored result.1 ≤ limit }
        ensures orderly { IsOrderly result.1 }
        ensures failed { R.has_failed result.2 ≡ self.pull.failed }
    {
        let (header, list, reader) = self.end();
        let _list = list.in_order();
        (header, list, reader)
    }

    /// Continues over another store, which takes the entries that are stored so far. From then on
    /// only what is in its scope is stored. The comment is dropped. If an allocation fails, returns
    /// the reader: the list is refused with `NoMemory`.
    pub fn continue_over<T: Store>(self, alloc: Global, store: T) -> Result<Walk<T, R>, R>
        requires empty { T.contents store ≡ nothing }
        requires narrower { T.scope store ≢ all }
        ensures reads { IfOk result (λ walk. (text : List ℕ) (fields : List (List ℕ))
            → HasRead text fields self → HasRead text fields walk) }
        ensures scope { IfOk result (λ walk. walk.stored.scope ≡ T.scope store) }
        ensures same { IfOk result (λ walk. walk ≡ record self { stored = walk.stored }) }
        ensures bounds { IfOk result (λ walk. IsBounded walk.pull walk.stored) }
        ensures refused { IfErr result (λ reader. (text : List ℕ) (fields : List (List ℕ))
            → HasRead text fields self
            → Says NoMemory text (R.has_failed reader) (R.left reader)) }
        ensures failed { IfErr result (λ reader. self.fault ≡ None
            → R.has_failed reader ≡ false) }
    {
        let Walk {
            pull,
            place,
            stored,
            large,
            ended,
            fault,
        } = self;
        match stored.continue_over(alloc, store) {
            Ok(stored) => Ok(Walk {
                pull,
                place,
                stored,
                large,
                ended,
                fault,
            }),
            Err(_) => Err(pull.into_inner()),
        }
    }
}

impl<T: Store, R: Source + Drop> Walk<T, R> {
    /// A walk that has read nothing yet, over an empty store. The reader must not have failed
    /// before.
    pub fn over(alloc: Global, store: T, reader: R) -> Self
        requires empty { T.contents store ≡ nothing }
        requires fresh { R.has_failed reader ≡ false }
        ensures start { (text : List ℕ) → R.left reader ≡ Some text → HasRead text [] result }
        ensures bounds { IsBounded result.pull result.stored }
        ensures untaken { result.pull.taken ≡ 0 }
        ensures faultless { result.fault ≡ None }
        ensures scope { result.stored.scope ≡ T.scope store }
    {
        Walk {
            pull: Pull::new(reader, LIMIT),
            place: Place::start(),
            stored: FieldStore::new(alloc, store),
            large: Vec::new(alloc),
            ended: false,
            fault: None,
        }
    }

    /// Reads the next field of the list. It takes no byte after the field, but may look at one.
    /// Returns false at the end of the list, and from then on. After a fault it returns that fault
    /// from then on.
    pub fn step(&mut self) -> Result<bool, KrlFault>
        ensures more { IfOk result (λ more. IsTrue more → Follows self.old self.new) }
        ensures ends { IfOk result (λ more. more ≡ false → Ends self.old self.new) }
        ensures fault { IfErr result (λ fault. Stops fault self.old self.new) }
        ensures repeats { Repeats self.old result self.new }
        ensures bounds { IsBounded self.new.pull self.new.stored }
    {
        if let Some(fault) = self.fault {
            return Err(fault);
        }
        if self.ended {
            return Ok(false);
        }
        match read_field(
            &mut self.pull,
            &mut self.place,
            &mut self.stored,
            &mut self.large,
        ) {
            Ok(more) => {
                self.ended = !more;
                Ok(more)
            }
            Err(fault) => {
                self.fault = Some(fault);
                Err(fault)
            }
        }
    }

    /// Does the same as `step`, but may read many fields that are in the reader's buffer.
    pub fn read_fields(&mut self) -> Result<bool, KrlFault>
        ensures more { IfOk result (λ more. IsTrue more → Advances self.old self.new) }
        ensures ends { IfOk result (λ more. more ≡ false → Ends self.old self.new) }
        ensures fault { IfErr result (λ fault. Stops fault self.old self.new) }
        ensures repeats { Repeats self.old result self.new }
        ensures bounds { IsBounded self.new.pull self.new.stored }
    {
        if self.fault.is_some() || self.ended {
            return self.step();
        }
        let (count, done) = read_buffered(&mut self.place, &mut self.stored, self.pull.buffer());
        if count == 0 {
            return self.step();
        }
        self.pull.consume(count);
        if done.is_err() {
            self.fault = Some(KrlFault::NoMemory);
            return Err(KrlFault::NoMemory);
        }
        Ok(true)
    }

    /// The header, the store and the reader, after a step that returned false. The header has no
    /// comment if only some topics are in scope.
    pub fn end(self) -> (Header, T, R)
        requires { self.ended ≡ true }
        ensures whole { (text : List ℕ) → (fields : List (List ℕ)) → HasRead text fields self
            → OfHeader (T.scope result.1) result.0 (λ header.
            IsWholeAs (HoldsInScope (T.scope result.1)) text header (T.contents result.1)) }
        ensures within { IsWithinLimit (T.scope result.1) (T.contents result.1) }
        ensures scope { T.scope result.1 ≡ self.stored.scope }
        ensures failed { R.has_failed result.2 ≡ self.pull.failed }
    {
        let (header, store) = self.stored.done();
        (header, store, self.pull.into_inner())
    }

    /// The reader. It continues after the last byte that was taken or looked at.
    pub fn into_reader(self) -> R
        ensures left { R.left result ≡ self.pull.source }
        ensures failed { R.has_failed result ≡ self.pull.failed }
    {
        self.pull.into_inner()
    }

    /// The number of bytes of the list that were taken.
    pub fn taken(&self) -> u64
        ensures value { result ≡ self.now.pull.taken }
        ensures within { result ≤ limit }
    {
        self.pull.taken()
    }

    // The number of bytes that will be taken after the next field.
    pub(crate) fn taken_with_next(&self) -> u64
        ensures { result ≡ self.now.pull.taken + (expected self.now.place).size }
    {
        self.taken() + self.place.size() as u64
    }
}

// Whether the list ends here.
#[inline(always)]
fn ends<R: Source + Drop>(pull: &mut Pull<R>, place: Place) -> Result<bool, KrlFault>
    requires faultless { pull.old.fault ≡ None }
    requires works { pull.old.failed ≡ false }
    ensures ok { IfOk result (λ ended. LooksFor place pull.old ended pull.new) }
    ensures err { IfErr result (λ fault. (fault ≡ Read) × (can_end place ≡ true)
        × Refuses pull.old 1 pulls.Read pull.new) }
{
    if !place.may_end() {
        return Ok(false);
    }
    Ok(pull.at_end()?)
}

// Takes the expected field. A small field needs no allocation.
#[inline(always)]
fn take<'a, R: Source + Drop>(
    pull: &mut Pull<R>,
    place: Place,
    small: &'a mut [u8; SMALL],
    large: &'a mut Vec<u8>,
) -> Result<&'a [u8], KrlFault>
    requires { pull.old.fault ≡ None }
    ensures ok { IfOk result (λ field. Takes pull.old field.now pull.new) }
    ensures room { OnOk result (HasRoom (expected place)) }
    ensures size { IfOk result (λ field. length field.now ≡ (expected place).size) }
    ensures err { IfErr result (λ fault. Missed place pull.old fault pull.new) }
    ensures memory { IfErr result (λ fault. fault ≡ NoMemory → 32 < (expected place).size) }
{
    if !place.has_room() {
        return Err(KrlFault::Length);
    }
    let size = place.size() as usize;
    if size <= SMALL {
        let field = &mut small[..size];
        pull.fill(field)?;
        return Ok(field);
    }
    pull.bytes_into(large, size)?;
    Ok(large.as_slice())
}

// Judges the field that was taken, stores what it names, and returns the place after it.
#[inline(always)]
fn judge_and_store<T: Store>(
    place: Place,
    stored: &mut FieldStore<T>,
    field: &[u8],
) -> Result<Place, KrlFault>
    requires room { HasRoom (expected place) }
    requires size { length field.now ≡ (expected place).size }
    requires in_step { InStep place stored.old.bitmap }
    ensures passes { IfOk result (λ next. Passes place field.now next) }
    ensures stores_field { IfOk result (λ next.
        StoresField place field.now next stored.old stored.new) }
    ensures bytes { IsBytes field.now }
    ensures grows { GrowsAtMost (length field.now) stored.old stored.new }
    ensures err { IfErr result (λ fault. ((fault ≡ NoMemory) × NeedsMemory place field.now)
        ⊎ ((expected place).judged field.now ≡ Err fault)) }
{
    let next = place.judge_field(field)?;
    stored.store_field(place, field, next)?;
    Ok(next)
}

// Reads a field, or finds the end of the list.
fn read_field<T: Store, R: Source + Drop>(
    pull: &mut Pull<R>,
    place: &mut Place,
    stored: &mut FieldStore<T>,
    large: &mut Vec<u8>,
) -> Result<bool, KrlFault>
    requires { IsReached (working pull.old place.old stored.old) }
    ensures more { IfOk result (λ more. IsTrue more → Follows
        (working pull.old place.old stored.old) (working pull.new place.new stored.new)) }
    ensures ends { IfOk result (λ more. more ≡ false → Ends
        (working pull.old place.old stored.old) (at_its_end pull.new place.new stored.new)) }
    ensures fault { IfErr result (λ fault. Refused fault
        (working pull.old place.old stored.old) pull.new) }
    ensures sound { OnOk result (IsReached (working pull.new place.new stored.new)) }
    ensures failure { ReportsFailure result pull.new.failed }
    ensures bounds { IsBounded pull.new stored.new }
{
    if ends(pull, *place)? {
        return Ok(false);
    }
    let mut small = [0; SMALL];
    let field = take(pull, *place, &mut small, large)?;
    *place = judge_and_store(*place, stored, field)?;
    Ok(true)
}
