//! Making a list over what is under its name, until no other program changes that meanwhile.

ghost use Rattle.std.specs.Prelude.{◌≡◌, ℕ, Bool, List, IfErr, IfOk, IfSome, None, Ok, false};
ghost use Rattle.std.specs.Prelude.{option_map};
ghost use Rattle.std.specs.Option.{ForSome};
ghost use Rattle.run_faults.specs.declared.cause.Cause.{Cause as CauseOf};
ghost use Rattle.list_making.specs.Target.{IsKept, Old};
ghost use Rattle.list_making.specs.Making.{IsPut, IsUntouched, WhyUnput};

use crate::target::{Put, Target};
use byte_streams::Source;
use run_faults::Cause;
use std::alloc::Global;

// How often a list is made again because another program changed what is under its name. Each of
// several simultaneous updates waits for those before it, so this is far above their number.
const TRIES: u32 = 10_000;

/// A list that was made: its bytes, and what its maker says about it.
#[derive(Drop)]
pub struct Made<T: Drop> {
    /// Its bytes.
    pub bytes: Vec<u8>,
    /// The facts that its maker states about it.
    pub facts: T,
}

/// A maker of the bytes of a list, perhaps over those of an old one.
pub trait Maker {
    /// The facts that it states about a list that it made.
    type Facts: Drop;

    /// Why it makes none.
    type Fault: Drop;

    // whether it has to read the old list
    ghost reads: { Self → Bool };

    // what it makes over an old list, or without one
    ghost makes: { Self → Old → List ℕ → Self.Facts → Type 0 };

    // why it makes none
    ghost refuses: { Self → Old → Self.Fault → Type 0 };

    // the fault of a list that cannot be held or put
    ghost fault_of: { Self → CauseOf → Self.Fault };

    /// Whether it has to read the old list.
    fn reads_old(&self) -> bool
        ensures { result ≡ reads self.now };

    /// The bytes of a list over an old one that a reader gives, or without one.
    fn make<R: Source + Drop>(
        &self,
        alloc: Global,
        old: Option<R>,
    ) -> Result<Made<Self::Facts>, Self::Fault>
        requires { ForSome old (λ reader. R.has_failed reader ≡ false) }
        ensures made { IfOk result (λ made.
            makes self.now (option_map R.left old) made.bytes.items made.facts) }
        ensures refused { IfErr result (refuses self.now (option_map R.left old)) };

    /// The fault of a list that cannot be held or put.
    fn fault(&self, cause: Cause) -> Self::Fault
        ensures { result ≡ fault_of self.now cause };
}

/// Makes a list over what is under its name, and puts it there. It is made again where another
/// program changed what is there meanwhile.
pub fn make_at<P: Target, M: Maker>(
    alloc: Global,
    maker: &M,
    place: &mut P,
) -> Result<Made<M::Facts>, M::Fault>
    ensures put { IfOk result (λ made. IsPut P.holds P.replaced (M.reads maker.now)
        (λ old. M.makes maker.now old made.bytes.items made.facts) made.bytes.items place.new) }
    ensures why { IfErr result (WhyUnput P.base (M.reads maker.now) (M.refuses maker.now)
        (M.fault_of maker.now) place.new) }
    ensures kept { IfErr result (IsUntouched P.holds P.overtaken (M.fault_of maker.now) place.old
        place.new) }
{
    for _ in 0..TRIES {
        if let Some(made) = make_once(alloc, maker, place)? {
            return Ok(made);
        }
    }
    Err(maker.fault(Cause::Output { count: 0 }))
}

// Makes the list once, and puts it there. Returns none if another program changed meanwhile what is
// there: a fault of a list that was changed while it was read is no fault of the list.
fn make_once<P: Target, M: Maker>(
    alloc: Global,
    maker: &M,
    place: &mut P,
) -> Result<Option<Made<M::Facts>>, M::Fault>
    ensures put { IfOk result (λ made. IfSome made (λ made. IsPut P.holds P.replaced
        (M.reads maker.now) (λ old. M.makes maker.now old made.bytes.items made.facts)
        made.bytes.items place.new)) }
    ensures again { result ≡ Ok None → P.overtaken place.new }
    ensures why { IfErr result (WhyUnput P.base (M.reads maker.now) (M.refuses maker.now)
        (M.fault_of maker.now) place.new) }
    ensures kept { IfErr result (IsUntouched P.holds P.overtaken (M.fault_of maker.now) place.old
        place.new) }
{
    let old = match place.hold(maker.reads_old()) {
        Ok(old) => old,
        Err(cause) => return Err(maker.fault(cause)),
    };
    let made = maker.make(alloc, old);
    if place.is_changed() {
        return Ok(None);
    }
    let made = match made {
        Ok(made) => made,
        Err(fault) => return Err(fault),
    };
    match place.put(&made.bytes) {
        Ok(Put::Whole(_)) => Ok(Some(made)),
        Ok(Put::Again) => Ok(None),
        Err(cause) => Err(maker.fault(cause)),
    }
}
