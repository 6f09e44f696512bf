//! Lists by which no audit is made (krl(1), -f and PLAIN LISTS).

use crate::tests::audits::LOUD;
use crate::tests::shelf::{Item, Node, Paper, Shelf};
use audit_run::{Audited, Order, Search, Sources, audit_run};
use byte_streams::{FromRead, Lent, ToWrite};
use krl_openssh::Incomparable;
use ssh_wire::Bytes;
use std::alloc::Global;
use std::process::Abort;
use std::test::Fail;
use test_fixtures::{FIVE, GITHUB_LINE, Giver, Taker, joined, list_of};

const ITEMS: &[Item<'static>] = &[Item("a", Node::File(0, 1, GITHUB_LINE))];

// Serial number 5 of a certificate authority that is no key.
const NO_KEY: &[u8] = b"\x01\0\0\0\x17\0\0\0\x02ca\0\0\0\0\x20\0\0\0\x08\0\0\0\0\0\0\0\x05";

// A key ID of all authorities, with a zero byte at its end.
const ODD_ID: &[u8] = b"\x01\0\0\0\x13\0\0\0\0\0\0\0\0\x23\0\0\0\x06\0\0\0\x02a\0";

// The end of an audit by a list with these bytes.
#[derive(Clone, Copy, PartialEq, Eq)]
enum End {
    Ended(u8),
    Other(Incomparable),
    Refused,
}

// The end of an audit of two names by a list with these bytes. Without an end nothing is printed.
fn end_of(rt: &impl Abort, alloc: Global, list: Vec<u8>) -> End {
    let mut taker = Taker::whole(alloc);
    let mut out = Paper {
        out: ToWrite::new(&mut taker),
    };
    let order = Order {
        list: "revoked.krl",
        canaries: None,
        texts: None,
        sought: &[],
        shown: LOUD.shown(),
        search: Search::KeyFiles,
        names_from: "",
        paths: &["a", "gone"],
    };
    let names: Option<FromRead<Giver<'static>>> = None;
    let tree = Shelf { items: ITEMS };
    let given = Sources {
        tree: &tree,
        names,
        input: Lent::new(b""),
    };
    let end = match audit_run(alloc, &order, Bytes::from_vec(list), given, &mut out) {
        Audited::Ended { done, .. } => End::Ended(done.status),
        Audited::Incomparable(why) => End::Other(why),
        Audited::Refused(_) => End::Refused,
    };
    drop(out);
    assert!(rt; taker.taken.is_empty() == !matches!(end, End::Ended(_)));
    end
}

#[test]
fn ends_by_lists(rt: HostRuntime) -> Result<(), Fail> {
    let alloc = rt.alloc();
    assert!(rt; end_of(&rt, alloc, joined(alloc, &[GITHUB_LINE])?) == End::Ended(1));
    assert!(rt; end_of(&rt, alloc, joined(alloc, &[b"garbage\n"])?) == End::Refused);
    assert!(rt; end_of(&rt, alloc, list_of(alloc, FIVE)?) == End::Ended(3));
    let no_key = end_of(&rt, alloc, list_of(alloc, NO_KEY)?);
    assert!(rt; no_key == End::Other(Incomparable::Authority));
    let odd_id = end_of(&rt, alloc, list_of(alloc, ODD_ID)?);
    assert!(rt; odd_id == End::Other(Incomparable::KeyId));
    assert!(rt; end_of(&rt, alloc, list_of(alloc, b"\x01\0")?) == End::Refused);
    Ok(())
}
