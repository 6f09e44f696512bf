//! The callers of the pages of `list_diff`, `list_text` and `show_run`.

ghost use Rattle.std.specs.Prelude.{◌≡◌, [], IfOk, false};
ghost use Rattle.krl_entries.specs.Facts.{ItemFact};
ghost use Rattle.list_text.specs.Facts.{HeldFact};
ghost use Rattle.list_text.specs.Text.{fact_line, no_names};

use crate::tests::runs::Shelf;
use any_list::Lists;
use byte_streams::{Sink, ToWrite};
use krl_entries::{Fact as Held, Revocations};
use krl_types::ItemKind;
use list_diff::difference;
use list_text::{Fact, Form};
use serial_set::Spans;
use show_run::{Comparison, diff_run, show_run};
use std::alloc::{AllocError, Global};
use test_fixtures::Taker;

/// The line of a key ID in the text of a list.
fn id_line(alloc: Global, id: &[u8]) -> Result<Vec<u8>, AllocError>
    ensures { IfOk result (λ line. line.items
        ≡ fact_line no_names (HeldFact (ItemFact ItemKind.Id [] id.now))) }
{
    let mut line = Vec::new(alloc);
    let fact = Fact::Held(Held::Item(ItemKind::Id, &[], id));
    Form::Text(None).write_fact(alloc, fact, &mut line)?;
    Ok(line)
}

/// Whether the lists of these names can be read and printed as a text.
fn are_shown<L: Lists, W: Sink>(alloc: Global, lists: &mut L, names: &[&str], out: &mut W) -> bool
    requires { W.has_failed out.old ≡ false }
{
    show_run(alloc, lists, names, Form::Text(None), out).status == 0
}

/// Whether the list of one name names exactly what the list of another name does.
fn are_same<L: Lists, W: Sink>(
    alloc: Global,
    lists: &mut L,
    comparison: Comparison,
    out: &mut W,
) -> bool
    requires { W.has_failed out.old ≡ false }
{
    diff_run(alloc, lists, comparison, out).status == 0
}

#[test]
fn the_callers_of_the_pages(rt: HostRuntime) {
    let line = id_line(rt.alloc(), b"bob").expect(&rt, "there is memory");
    assert!(rt; line.as_slice() == b"id: bob\n".as_slice());
    let mut said = Taker::whole(rt.alloc());
    assert!(rt;
        are_shown(
            rt.alloc(),
            &mut Shelf,
            &["five"],
            &mut ToWrite::new(&mut said)
        )
    );
    assert!(rt;
        !are_shown(
            rt.alloc(),
            &mut Shelf,
            &["gone"],
            &mut ToWrite::new(&mut said)
        )
    );
    let comparison = Comparison {
        old: "hundreds",
        new: "pieces",
        json: false,
        names: None,
    };
    assert!(rt;
        are_same(
            rt.alloc(),
            &mut Shelf,
            comparison,
            &mut ToWrite::new(&mut said)
        )
    );
}

/// Whether new revocations name all that the old ones do.
fn is_superset<S: Spans>(
    alloc: Global,
    old: &Revocations<S>,
    new: &Revocations<S>,
) -> Result<bool, AllocError> {
    let lost = difference(alloc, new, old)?;
    Ok(lost.is_nothing())
}

#[test]
fn a_list_names_more_than_another(rt: HostRuntime) {
    let old: Revocations<span_sets::Held> = Revocations::new(rt.alloc());
    let mut new: Revocations<span_sets::Held> = Revocations::new(rt.alloc());
    new.add_key(b"key").expect(&rt, "there is memory");
    assert!(rt; is_superset(rt.alloc(), &old, &new) == Ok(true));
    assert!(rt; is_superset(rt.alloc(), &new, &old) == Ok(false));
}
