//! Key IDs, keys and hashes that one list has and another does not.

ghost use Rattle.std.specs.Prelude.{All, OnOk, map};
ghost use Rattle.krl_types.specs.Item.{IsItem, item_entry};
ghost use Rattle.list_diff.specs.Lost.{Gains, Lost};

use krl_entries::{Addition, Revocations, Texts};
use krl_types::ItemKind;
use serial_set::Spans;
use std::alloc::AllocError;

/// Adds the items that other revocations do not hold, key IDs under exactly this authority.
pub(crate) fn add_items<S: Spans>(
    gone: &mut Revocations<S>,
    kind: ItemKind,
    authority: &[u8],
    items: Texts<'_>,
    old: &Revocations<S>,
) -> Result<(), AllocError>
    requires { All (IsItem kind) items }
    ensures { OnOk result (Gains gone.old
        (Lost old.now (map (item_entry kind authority.now) items.entry)) gone.new) }
{
    for item in items {
        if !old.has_item(authority, kind, item) {
            gone.add(authority, Addition::Item(kind, item))?;
        }
    }
    Ok(())
}
