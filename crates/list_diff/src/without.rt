//! The difference of two lists of revocations.

ghost use Rattle.std.specs.Prelude.{◌↔◌, ◌+◌, ◌≤◌, ℕ, IfOk, OnOk};
ghost use Rattle.serial_set.specs.Span.{Covers};
ghost use Rattle.krl_entries.specs.Canonical.{section_entries};
ghost use Rattle.krl_entries.specs.Revocations.{HoldsSerial, held};
ghost use Rattle.list_diff.specs.Ahead.{spans_in};
ghost use Rattle.list_diff.specs.Lost.{Gains, Lost};
ghost use Rattle.list_diff.specs.Without.{HoldsWithout, MeansWithout};

use crate::items::add_items;
use crate::serials::add_serials;
use krl_entries::{Listed, Revocations};
use krl_types::ItemKind;
use serial_set::Spans;
use std::alloc::{AllocError, Global};

/// The new revocations without the names of the old ones. Fails only if an allocation fails.
pub fn difference<'a, S: Spans>(
    alloc: Global,
    old: &'a Revocations<S>,
    new: &'a Revocations<S>,
) -> Result<Revocations<S>, AllocError>
    ensures holds { IfOk result (HoldsWithout old.now new.now) }
    ensures means { IfOk result (MeansWithout old.now new.now) }
    ensures held { IfOk result (λ gone. held gone ≤ held new.now + held old.now) }
{
    let _old = old.in_order();
    let _new = new.in_order();
    let mut gone = Revocations::new(alloc);
    for listed in new.iter_authorities() {
        add_section(&mut gone, old, listed)?;
    }
    add_items(&mut gone, ItemKind::Key, b"", new.iter_keys(), old)?;
    add_items(&mut gone, ItemKind::Sha1, b"", new.iter_sha1s(), old)?;
    add_items(&mut gone, ItemKind::Sha256, b"", new.iter_sha256s(), old)?;
    let _gone = gone.in_order();
    Ok(gone)
}

// Adds the serial numbers and the key IDs of an authority that the old revocations do not name.
fn add_section<'a, S: Spans>(
    gone: &mut Revocations<S>,
    old: &'a Revocations<S>,
    listed: Listed<'a, S>,
) -> Result<(), AllocError>
    ensures { OnOk result (Gains gone.old (Lost old.now (section_entries listed.entry)) gone.new) }
{
    let authority = listed.authority();
    let other = spans_of(old, authority);
    add_serials(gone, authority, listed.spans(), other)?;
    add_items(gone, ItemKind::Id, authority, listed.iter_ids(), old)
}

// The serial numbers of an authority, if the old revocations name it.
fn spans_of<'a, S: Spans>(old: &'a Revocations<S>, authority: &'a [u8]) -> Option<&'a S>
    ensures { (s : ℕ) → HoldsSerial old.now.sections authority.now s
        ↔ Covers (spans_in S.spans result) s }
{
    match old.section(authority) {
        Some(other) => Some(other.spans()),
        None => None,
    }
}
