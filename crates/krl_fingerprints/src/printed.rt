//! The list of fingerprints of a list.

ghost use Rattle.std.specs.Prelude.{◌≡◌, ◌∷◌, [], IfOk, List, OnOk};
ghost use Rattle.sha2.specs.Sha256.{sha256};
ghost use Rattle.krl_entries.specs.Changes.{MeansMore};
ghost use Rattle.krl_entries.specs.Facts.{fact_of};
ghost use Rattle.krl_entries.specs.Revocations.{Means};
ghost use Rattle.krl_types.specs.Entry.{Entry};
ghost use Rattle.krl_types.specs.Item.{item_entry};
ghost use Rattle.krl_fingerprints.specs.Facts.{IsFine, fact_entries};
ghost use Rattle.krl_fingerprints.specs.Printed.{authority_print, printed};

use krl_entries::{Fact, Revocations};
use krl_types::ItemKind;
use sha2::{Digest, Sha256};
use span_sets::Held;
use std::alloc::{AllocError, Global};

/// A list with the SHA-256 of each blob in place of the blob: a key, or the authority of a serial
/// number or a key ID. A SHA-256 has the SHA-256 of itself in its place, which is that of the SHA-256
/// of a key. A SHA-1 is left out, since it cannot be told from a SHA-256. Fails only if an allocation
/// fails.
pub fn fingerprint_list(
    alloc: Global,
    list: &Revocations<Held>,
) -> Result<Revocations<Held>, AllocError>
    ensures { IfOk result (λ prints. (entries : List Entry) → Means list.now entries
        → Means prints (printed entries)) }
{
    let list = list.in_order();
    let mut prints = Revocations::new(alloc);
    'facts: for fact in list.facts() {
        add_fact(&mut prints, fact)?;
    }
    Ok(prints)
}

// Adds the fingerprints of what a fact names.
fn add_fact(prints: &mut Revocations<Held>, fact: Fact<'_>) -> Result<(), AllocError>
    requires { IsFine (fact_of fact) }
    ensures { OnOk result (MeansMore prints.old prints.new
        (printed (fact_entries (fact_of fact.entry)))) }
{
    match fact {
        Fact::Authority(_) => Ok(()),
        Fact::Serials(authority, span) => {
            let print = Sha256::digest(authority);
            prints.add_serials(
                fingerprint_of_authority(authority, &print),
                span.lo,
                span.hi,
            )
        }
        Fact::Item(kind, authority, bytes) => add_item(prints, kind, authority, bytes),
    }
}

// Adds the fingerprint of an item.
fn add_item(
    prints: &mut Revocations<Held>,
    kind: ItemKind,
    authority: &[u8],
    item: &[u8],
) -> Result<(), AllocError>
    ensures { OnOk result (MeansMore prints.old prints.new
        (printed (item_entry kind authority.now item.now ∷ []))) }
{
    match kind {
        ItemKind::Id => {
            let print = Sha256::digest(authority);
            prints.add_id(fingerprint_of_authority(authority, &print), item)
        }
        ItemKind::Key => prints.add_key(&Sha256::digest(item)),
        ItemKind::Sha1 => Ok(()),
        ItemKind::Sha256 => prints.add_sha256(&Sha256::digest(item)),
    }
}

// All authorities, or an authority by its fingerprint.
fn fingerprint_of_authority<'a>(authority: &[u8], print: &'a [u8; 32]) -> &'a [u8]
    requires { print.now ≡ sha256 authority.now }
    ensures { result.now ≡ authority_print authority.now }
{
    if authority.is_empty() { &[] } else { print }
}
