//! Names of files that a reader gives (krl(1), --files0-from).

use crate::tests::audits::{Asked, Case, LOUD, REVOKED, check};
use crate::tests::shelf::{Item, Node, Paper, Shelf};
use audit_run::{Audited, Order, Search, Sources, audit_run};
use byte_streams::{FromRead, Lent, ToWrite};
use run_faults::{Cause, FileFault};
use ssh_wire::Bytes;
use std::test::Fail;
use test_fixtures::{GITHUB_LINE, Giver, Taker, Then, joined, repeated};

const ITEMS: &[Item<'static>] = &[
    Item("a", Node::File(0, 1, GITHUB_LINE)),
    Item("b", Node::File(0, 2, GITHUB_LINE)),
    Item("c", Node::File(0, 3, b"")),
    Item("d", Node::Directory(b"x.pub\0")),
    Item("d/x.pub", Node::File(0, 4, GITHUB_LINE)),
    Item("pipe", Node::Special(GITHUB_LINE)),
    Item("-", Node::Special(GITHUB_LINE)),
];

// An audit of these names, and of the file b.
const fn asked(names: &[u8]) -> Asked<'_> {
    Asked {
        options: LOUD,
        search: Search::KeyFiles,
        names: Some(names),
        sought: &[],
    }
}

#[test]
fn names_come_before_paths(rt: HostRuntime) {
    let case = Case {
        paths: &["b"],
        text: &[b"a:1", REVOKED, b"d/x.pub:1", REVOKED, b"b:1", REVOKED],
        counts: b"4 files, 3 keys: 3 revoked in 3 files, 0 unread",
        status: 1,
    };
    check(&rt, rt.alloc(), ITEMS, &asked(b"a\0c\0d\0"), &case);
    check(&rt, rt.alloc(), ITEMS, &asked(b"a\0c\0d"), &case);
}

#[test]
fn no_name_is_no_error(rt: HostRuntime) {
    let case = Case {
        paths: &[],
        text: &[],
        counts: b"0 files, 0 keys: 0 revoked in 0 files, 0 unread",
        status: 0,
    };
    check(&rt, rt.alloc(), ITEMS, &asked(b""), &case);
}

#[test]
fn names_that_are_not_read(rt: HostRuntime) {
    let case = Case {
        paths: &[],
        text: &[
            b"gone: unread: No such file or directory
pipe: unread: no regular file
-: unread: no regular file
\\xe9: unread: it cannot be opened\n",
        ],
        counts: b"4 files, 0 keys: 0 revoked in 0 files, 4 unread",
        status: 3,
    };
    check(
        &rt,
        rt.alloc(),
        ITEMS,
        &asked(b"gone\0pipe\0-\0\xe9"),
        &case,
    );
}

#[test]
fn a_name_of_4097_bytes(rt: HostRuntime) -> Result<(), Fail> {
    let front = repeated(rt.alloc(), b"n", 4_096)?;
    let names = joined(
        rt.alloc(),
        &[front.as_slice(), b"n\0", front.as_slice(), b"\0c\0"],
    )?;
    let text: [&[u8]; 4] = [
        front.as_slice(),
        b": unread: its name has more than 4,096 bytes\n",
        front.as_slice(),
        b": unread: No such file or directory\n",
    ];
    let case = Case {
        paths: &[],
        text: &text,
        counts: b"3 files, 0 keys: 0 revoked in 0 files, 2 unread",
        status: 3,
    };
    check(&rt, rt.alloc(), ITEMS, &asked(names.as_slice()), &case);
    Ok(())
}

#[test]
fn names_that_cannot_be_read_to_their_end(rt: HostRuntime) -> Result<(), Fail> {
    let mut taker = Taker::whole(rt.alloc());
    let mut out = Paper {
        out: ToWrite::new(&mut taker),
    };
    let order = Order {
        list: "revoked.krl",
        canaries: None,
        texts: None,
        sought: &[],
        shown: LOUD.shown(),
        search: Search::KeyFiles,
        names_from: "names",
        paths: &["b"],
    };
    let mut names = Giver::new(b"a\0b", 3);
    names.then = Then::Fails;
    let given = Sources {
        tree: &Shelf { items: ITEMS },
        names: Some(FromRead::new(names)),
        input: Lent::new(b""),
    };
    let list = Bytes::from_vec(joined(rt.alloc(), &[GITHUB_LINE])?);
    let audited = audit_run(rt.alloc(), &order, list, given, &mut out);
    let ended = match audited {
        Audited::Ended { done, summary } => Some((done, summary)),
        Audited::Incomparable(_) | Audited::Refused(_) => None,
    };
    let (done, summary) = ended.expect(&rt, "the list is read");
    assert!(rt; done.status == 255);
    assert!(rt; summary.is_none());
    let fault = done.fault.expect(&rt, "the reader failed");
    assert!(rt; fault.name == "names");
    assert!(rt; matches!(fault.cause, Cause::File(FileFault::Read)));
    drop(out);
    let wanted = joined(rt.alloc(), &[b"a:1", REVOKED])?;
    assert!(rt; taker.taken.as_slice() == wanted.as_slice());
    Ok(())
}
