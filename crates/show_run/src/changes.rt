//! What each of two lists names and the other does not.

ghost use Rattle.std.specs.Prelude.{◌↔◌, IfErr, IfOk, IsTrue};
ghost use Rattle.any_list.specs.Told.{Tells};
ghost use Rattle.show_run.specs.Changes.{AreChanges, AreCompared, IsUncompared, IsUnchanged};

use any_list::{Lists, read_given};
use krl_core::Revocations;
use list_diff::difference;
use run_faults::{Cause, RunFault};
use span_sets::Held;
use std::alloc::{AllocError, Global};

/// The revocations of each of two lists that the other lacks.
#[derive(Drop)]
pub(crate) struct Changes {
    /// Those of the new list alone.
    pub(crate) added: Revocations<Held>,
    /// Those of the old list alone.
    pub(crate) removed: Revocations<Held>,
}

impl Changes {
    /// Whether both lists name the same.
    pub(crate) fn is_none(&self) -> bool
        ensures { IsTrue result ↔ IsUnchanged self.now }
    {
        self.added.is_nothing() && self.removed.is_nothing()
    }
}

/// Reads two lists of these names, and compares what they name. Or says why one of them is refused.
pub(crate) fn read_changes<'a, L: Lists>(
    alloc: Global,
    lists: &mut L,
    old: &'a str,
    new: &'a str,
) -> Result<Changes, RunFault<'a>>
    ensures found { IfOk result (λ changes. Tells (L.told lists.old) (L.told lists.new)
        (λ told. AreCompared told old.now new.now changes)) }
    ensures fault { IfErr result (λ stop. Tells (L.told lists.old) (L.told lists.new)
        (λ told. IsUncompared told old.now new.now stop)) }
{
    // The bytes of a list are not kept.
    let before = read_given(alloc, lists, old)?.list;
    let after = read_given(alloc, lists, new)?.list;
    match changes_of(alloc, &before.revocations, &after.revocations) {
        Ok(changes) => Ok(changes),
        Err(_) => Err(RunFault::whole(new, Cause::NoMemory)),
    }
}

// The revocations of each that the other lacks.
fn changes_of(
    alloc: Global,
    old: &Revocations<Held>,
    new: &Revocations<Held>,
) -> Result<Changes, AllocError>
    ensures { IfOk result (λ changes. AreChanges old.now new.now changes) }
{
    let added = difference(alloc, old, new)?;
    let removed = difference(alloc, new, old)?;
    Ok(Changes { added, removed })
}
