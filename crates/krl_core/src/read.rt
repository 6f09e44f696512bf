//! Reading a list to its end, or up to a number of bytes.

ghost use Rattle.std.specs.Prelude.{◌≡◌, ◌*◌, ◌≤◌, ◌⊎◌, length, false, ℕ, List, None, Some};
ghost use Rattle.std.specs.Prelude.{IfErr, IfOk, IsTrue};
ghost use Rattle.ssh_wire.specs.Wire.{IsBytes};
ghost use Rattle.krl_format.specs.declared.header.Header.{Header as HeaderOf};
ghost use Rattle.krl_types.specs.declared.krl_fault.KrlFault.TheVariants.{NoMemory, Read};
ghost use Rattle.krl_entries.specs.Revocations.{held, stored};
ghost use Rattle.krl_format.specs.Front.{IsFirstKrlFault, limit};
ghost use Rattle.krl_format.specs.Krl.{SpelledSection, Spells};
ghost use Rattle.krl_core.specs.Reading.{EndsAfter, HasRead, HoldsInScope, IsBounded, IsList};
ghost use Rattle.krl_core.specs.Reading.{IsListAs, IsWithinLimit, OfHeader, ReadsUpTo, Repeats};
ghost use Rattle.krl_core.specs.Reading.{ReportsFailure, Stops};
ghost use Rattle.krl_format.specs.Faults.{Says};

use crate::reading::Walk;
use byte_streams::Source;
use krl_entries::{Gathered, Revocations, Store};
use krl_format::Header;
use krl_types::KrlFault;
use serial_set::Spans;
use std::alloc::Global;

/// Reads a list of at most 67,108,864 bytes to its end (PROTOCOL.krl), field by field, and returns
/// the reader. The reader must not have failed before.
///
/// If the list is refused, returns its first fault. If the reader fails, returns the first fault of
/// the bytes that it gave, or `Read` if they have no fault except that they end. Returns `NoMemory`
/// only if an allocation fails.
pub fn read_krl<S: Spans, R: Source + Drop>(
    alloc: Global,
    reader: R,
) -> (Result<(Header, Revocations<S>), KrlFault>, R)
    requires { R.has_failed reader ≡ false }
    ensures found { IfOk result.0 (λ list. (text : List ℕ) → R.left reader ≡ Some text
        → IsList text list.0 list.1) }
    ensures no_fault { IfOk result.0 (λ list. (text : List ℕ) → R.left reader ≡ Some text
        → IsFirstKrlFault text None) }
    ensures only { IfErr result.0 (λ fault.
        (text : List ℕ) → (header : HeaderOf) → (sections : List SpelledSection)
        → R.left reader ≡ Some text → IsBytes text → Spells text header sections
        → length text ≤ limit → (fault ≡ NoMemory) ⊎ (fault ≡ Read)) }
    ensures fault { IfErr result.0 (λ fault. (text : List ℕ) → R.left reader ≡ Some text
        → Says fault text (R.has_failed result.1) (R.left result.1)) }
    ensures failure { ReportsFailure result.0 (R.has_failed result.1) }
    ensures held { IfOk result.0 (λ list. held list.1 ≤ 4 * limit) }
    ensures stored { IfOk result.0 (λ list. stored list.1 ≤ limit) }
{
    let (read, reader) = Walk::over(alloc, Gathered::new(alloc), reader).read_on();
    match read {
        Ok((header, gathered)) => (Ok((header, gathered.into_held())), reader),
        Err(fault) => (Err(fault), reader),
    }
}

impl<T: Store, R: Source + Drop> Walk<T, R> {
    /// Reads to the end of the list, and returns the reader. The stored entries mean exactly what
    /// the sections of the list name in scope. The header has no comment if only some topics are in
    /// scope.
    pub fn read_on(self) -> (Result<(Header, T), KrlFault>, R)
        requires { self.fault ≡ None }
        ensures found { IfOk result.0 (λ list. (text : List ℕ) (fields : List (List ℕ))
            → HasRead text fields self
            → OfHeader (T.scope list.1) list.0 (λ header.
            IsListAs (HoldsInScope (T.scope list.1)) text header (T.contents list.1))) }
        ensures scope { IfOk result.0 (λ list. T.scope list.1 ≡ self.stored.scope) }
        ensures within { IfOk result.0
            (λ list. IsWithinLimit (T.scope list.1) (T.contents list.1)) }
        ensures no_fault { IfOk result.0 (λ _. (text : List ℕ) (fields : List (List ℕ))
            → HasRead text fields self → IsFirstKrlFault text None) }
        ensures fault { IfErr result.0 (λ fault. (text : List ℕ) (fields : List (List ℕ))
            → HasRead text fields self
            → Says fault text (R.has_failed result.1) (R.left result.1)) }
        ensures failure { ReportsFailure result.0 (R.has_failed result.1) }
    {
        let mut walk = self;
        'fields: loop {
            match walk.read_fields() {
                Ok(true) => {}
                Ok(false) => {
                    let (header, store, reader) = walk.end();
                    return (Ok((header, store)), reader);
                }
                Err(fault) => return (Err(fault), walk.into_reader()),
            }
        }
    }

    /// Reads field by field. Returns false at the end of the list, and true if the next field would
    /// exceed `most` bytes.
    pub fn read_to(&mut self, most: u64) -> Result<bool, KrlFault>
        ensures more { IfOk result (λ more. IsTrue more → ReadsUpTo most self.old self.new) }
        ensures ends { IfOk result (λ more. more ≡ false → EndsAfter self.old self.new) }
        ensures fault { IfErr result (λ fault. Stops fault self.old self.new) }
        ensures repeats { Repeats self.old result self.new }
        ensures bounds { IsBounded self.new.pull self.new.stored }
    {
        if let Some(fault) = self.fault {
            return Err(fault);
        }
        if self.ended {
            return Ok(false);
        }
        'fields: while self.taken_with_next() <= most {
            match self.step() {
                Ok(true) => {}
                Ok(false) => return Ok(false),
                Err(fault) => return Err(fault),
            }
        }
        Ok(true)
    }
}
