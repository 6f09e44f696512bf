//! The two ways in which a query may give keys.

ghost use Rattle.std.specs.Prelude.{◌≡◌, IfOk, List};
ghost use Rattle.krl_entries.specs.Revocations.{Means};
ghost use Rattle.krl_types.specs.Entry.{Entry};
ghost use Rattle.krl_fingerprints.specs.KeysBy.{entries_by};

use crate::printed::fingerprint_list;
use krl_entries::Revocations;
use span_sets::Held;
use std::alloc::{AllocError, Global};

/// How a query gives keys and authorities.
#[derive(Clone, Copy)]
pub enum KeysBy {
    /// By their blobs.
    Blob,
    /// By the SHA-256 of their blobs.
    Fingerprint,
}

/// A list for queries that give keys so: the list itself, or the list of its fingerprints. Fails
/// only if an allocation fails.
pub fn list_by(
    alloc: Global,
    by: KeysBy,
    list: Revocations<Held>,
) -> Result<Revocations<Held>, AllocError>
    ensures { IfOk result (λ made. (entries : List Entry) → Means list entries
        → Means made (entries_by by entries)) }
{
    match by {
        KeysBy::Blob => Ok(list),
        KeysBy::Fingerprint => fingerprint_list(alloc, &list),
    }
}
