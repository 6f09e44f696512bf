//! The callers of the pages of `text_entries`, `text_run` and `text_laws`.

ghost use Rattle.std.specs.Prelude.{◌≡◌, IfOk};
ghost use Rattle.krl_entries.specs.Revocations.{Revocations as RevocationsOf};
ghost use Rattle.list_text.specs.Text.{text_of};
ghost use Rattle.text_entries.specs.AuthorityNames.{NameOfKey};
ghost use Rattle.text_laws.specs.Names.{AreNames};
ghost use Rattle.text_laws.specs.ReadBack.{IsStored};

use byte_streams::Lent;
use krl_core::Revocations;
use list_making::Maker;
use span_sets::Held;
use std::alloc::Global;
use text_entries::{Standing, TextFault, read_text};
use text_laws::laws::text_reads_back;
use text_run::{Inputs, MakeFault, Over, read_texts};

/// The names of a text.
fn named_by(alloc: Global, text: &[u8]) -> Result<Revocations<Held>, TextFault> {
    let mut held = Revocations::new(alloc);
    read_text(alloc, &mut held, &mut Standing::new(alloc, 0), text)?;
    Ok(held)
}

/// The bytes of a list that names what the texts name, and follows no other.
fn list_of<'a>(alloc: Global, inputs: &'a Inputs<'a>) -> Result<Vec<u8>, MakeFault<'a>> {
    let list = read_texts(alloc, inputs)?;
    Ok(list.make(alloc, None::<Lent>)?.bytes)
}

/// The names of the text of a list: if it was printed from stored revocations, the same.
fn restored(alloc: Global, text: &[u8]) -> Result<Revocations<Held>, TextFault>
    ensures { (names : NameOfKey) (r : RevocationsOf) → AreNames names → IsStored r
        → text.now ≡ text_of names r → IfOk result (λ held. held ≡ r) }
{
    text_reads_back();
    let mut held = Revocations::new(alloc);
    read_text(alloc, &mut held, &mut Standing::new(alloc, 0), text)?;
    Ok(held)
}

#[test]
fn the_callers_of_the_pages(rt: HostRuntime) {
    let held = named_by(rt.alloc(), b"ca: all\nid: bob\n");
    assert!(rt; held.is_ok_and(|held| held.authorities() == 1));
    assert!(rt; named_by(rt.alloc(), b"id: bob\n").is_err());
    let held = restored(rt.alloc(), b"ca: all\nserial: 9\n");
    assert!(rt; held.is_ok_and(|held| held.authorities() == 1));
    let inputs = Inputs {
        name: "revoked.krl",
        over: Over::Version,
        version: None,
        date: 0,
        comment: None,
        allow_empty: false,
        texts: &[],
    };
    assert!(rt; list_of(rt.alloc(), &inputs).is_err());
}
