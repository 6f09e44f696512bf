//! Lists by which logins are asked about, and an output that fails (krl(1), krl logins, -f and
//! PLAIN LISTS).

use crate::tests::audits::LOUD;
use crate::tests::logins::{FINE_LOGIN, LOGIN, REVOKED};
use crate::tests::shelf::{Item, Node, Shelf};
use byte_streams::{Lent, ToWrite};
use krl_openssh::Incomparable;
use login_run::{LogSources, LoginOrder, LoginSummary, LoginsEnd, logins_run};
use run_faults::{Cause, RunFault};
use ssh_wire::Bytes;
use std::alloc::Global;
use std::process::Abort;
use std::test::Fail;
use test_fixtures::{FIVE, GITHUB_LINE, KEY_SECTION, SHA256_SECTION, Taker, joined, list_of};

const ITEMS: &[Item<'static>] = &[
    Item("revoked", Node::File(0, 1, LOGIN)),
    Item("fine", Node::File(0, 2, FINE_LOGIN)),
];

// The SHA-1 of the key `OTHER`, and of it and a second key.
const ONE_SHA1: &[u8] = b"\x03\0\0\0\x18\0\0\0\x14\
\xe6\x71\xdc\xfa\xcb\xb3\x99\x57\x23\x24\x4c\x84\x73\x5e\xb4\x78\xb9\x2f\x89\x8e";

const TWO_SHA1S: &[u8] = b"\x03\0\0\0\x30\0\0\0\x14\
\xc4\xfe\xea\x04\x88\x33\x4f\xe9\x37\x05\xe2\xeb\x3c\x71\x11\x43\x2c\x15\x3c\x46\0\0\0\x14\
\xe6\x71\xdc\xfa\xcb\xb3\x99\x57\x23\x24\x4c\x84\x73\x5e\xb4\x78\xb9\x2f\x89\x8e";

// The SHA-1 of the key `GITHUB`, which is not that of its SHA-256.
const SHA1_OF_GITHUB: &[u8] = b"\x03\0\0\0\x18\0\0\0\x14\
\xe9\x61\x9e\x2e\xd5\x6c\x2f\x2a\x71\x72\x9d\xb8\x0b\xac\xc2\xce\x9c\xcc\xe8\xd4";

// Serial number 5 of a certificate authority that is no key.
const NO_KEY: &[u8] = b"\x01\0\0\0\x17\0\0\0\x02ca\0\0\0\0\x20\0\0\0\x08\0\0\0\0\0\0\0\x05";

// A key ID of all authorities, with a zero byte at its end.
const ODD_ID: &[u8] = b"\x01\0\0\0\x13\0\0\0\0\0\0\0\0\x23\0\0\0\x06\0\0\0\x02a\0";

// The status of a search by a list with these bytes, and the number of its SHA-1 hashes.
fn searched(rt: &impl Abort, alloc: Global, list: Vec<u8>, files: &[&str]) -> (u8, u64) {
    let mut taker = Taker::whole(alloc);
    let mut out = ToWrite::new(&mut taker);
    let order = LoginOrder {
        list: "revoked.krl",
        texts: None,
        shown: LOUD.shown(),
        files,
    };
    let given = LogSources {
        tree: &Shelf { items: ITEMS },
        input: Lent::new(b""),
    };
    match logins_run(alloc, &order, Bytes::from_vec(list), given, &mut out) {
        LoginsEnd::Ended { done, summary } => {
            let summary: LoginSummary = summary.expect(rt, "no fault stopped it");
            (done.status, summary.sha1s)
        }
        LoginsEnd::Incomparable(_) | LoginsEnd::Refused(_) => (255, 0),
    }
}

// A login by a key that only a SHA-1 names is not found, so such a list has the status 3 for it.
#[test]
fn lists_with_sha1_hashes(rt: HostRuntime) -> Result<(), Fail> {
    let alloc = rt.alloc();
    let both = joined(alloc, &[KEY_SECTION, TWO_SHA1S])?;
    let cases: [(&[u8], &[&str], (u8, u64)); 9] = [
        (ONE_SHA1, &["fine"], (3, 1)),
        (TWO_SHA1S, &["fine"], (3, 2)),
        (TWO_SHA1S, &["revoked"], (3, 2)),
        (SHA1_OF_GITHUB, &["revoked"], (3, 1)),
        (both.as_slice(), &["fine"], (3, 2)),
        (both.as_slice(), &["revoked"], (1, 2)),
        (both.as_slice(), &["fine", "gone"], (3, 2)),
        (KEY_SECTION, &["fine"], (0, 0)),
        (SHA256_SECTION, &["revoked"], (1, 0)),
    ];
    for (i, (sections, files, wanted)) in cases.iter().enumerate() {
        let found = searched(&rt, alloc, list_of(alloc, *sections)?, *files);
        assert!(rt; found == *wanted, "in row {i}");
    }
    let plain = searched(&rt, alloc, joined(alloc, &[GITHUB_LINE])?, &["revoked"]);
    assert!(rt; plain == (1, 0));
    let empty = searched(&rt, alloc, list_of(alloc, b"")?, &["revoked"]);
    assert!(rt; empty == (0, 0));
    let serial = searched(&rt, alloc, list_of(alloc, FIVE)?, &["revoked", "fine"]);
    assert!(rt; serial == (0, 0));
    Ok(())
}

// The end of a search by a list with these bytes.
#[derive(Clone, Copy, PartialEq, Eq)]
enum End {
    Ended(u8),
    Other(Incomparable),
    Refused,
}

// The end of a search for the login that the log `revoked` has. Without an end nothing is printed.
fn end_of(rt: &impl Abort, alloc: Global, list: Vec<u8>) -> End {
    let mut taker = Taker::whole(alloc);
    let mut out = ToWrite::new(&mut taker);
    let order = LoginOrder {
        list: "revoked.krl",
        texts: None,
        shown: LOUD.shown(),
        files: &["revoked", "gone"],
    };
    let given = LogSources {
        tree: &Shelf { items: ITEMS },
        input: Lent::new(b""),
    };
    let end = match logins_run(alloc, &order, Bytes::from_vec(list), given, &mut out) {
        LoginsEnd::Ended { done, .. } => End::Ended(done.status),
        LoginsEnd::Incomparable(why) => End::Other(why),
        LoginsEnd::Refused(fault) => {
            assert!(rt; fault.name == "revoked.krl");
            End::Refused
        }
    };
    drop(out);
    assert!(rt; taker.taken.is_empty() == !matches!(end, End::Ended(_)));
    end
}

#[test]
fn ends_by_lists(rt: HostRuntime) -> Result<(), Fail> {
    let alloc = rt.alloc();
    assert!(rt; end_of(&rt, alloc, joined(alloc, &[GITHUB_LINE])?) == End::Ended(1));
    assert!(rt; end_of(&rt, alloc, list_of(alloc, KEY_SECTION)?) == End::Ended(1));
    assert!(rt; end_of(&rt, alloc, list_of(alloc, FIVE)?) == End::Ended(3));
    assert!(rt; end_of(&rt, alloc, joined(alloc, &[b"garbage\n"])?) == End::Refused);
    assert!(rt; end_of(&rt, alloc, list_of(alloc, b"\x01\0")?) == End::Refused);
    let no_key = end_of(&rt, alloc, list_of(alloc, NO_KEY)?);
    assert!(rt; no_key == End::Other(Incomparable::Authority));
    let odd_id = end_of(&rt, alloc, list_of(alloc, ODD_ID)?);
    assert!(rt; odd_id == End::Other(Incomparable::KeyId));
    Ok(())
}

// An output that takes no bytes stops a search, and no counts are reported.
#[test]
fn an_output_that_fails(rt: HostRuntime) -> Result<(), Fail> {
    let alloc = rt.alloc();
    let mut taker = Taker::new(alloc, 10, 2);
    let mut out = ToWrite::new(&mut taker);
    let order = LoginOrder {
        list: "revoked.krl",
        texts: None,
        shown: LOUD.shown(),
        files: &["revoked", "fine"],
    };
    let given = LogSources {
        tree: &Shelf { items: ITEMS },
        input: Lent::new(b""),
    };
    let list = Bytes::from_vec(list_of(alloc, KEY_SECTION)?);
    let (done, summary) = match logins_run(alloc, &order, list, given, &mut out) {
        LoginsEnd::Ended { done, summary } => (Some(done), summary),
        LoginsEnd::Incomparable(_) | LoginsEnd::Refused(_) => (None, None),
    };
    let done = done.expect(&rt, "the list is read");
    assert!(rt; done.status == 255 && summary.is_none());
    let fault: RunFault<'_> = done.fault.expect(&rt, "the output failed");
    assert!(rt; matches!(fault.cause, Cause::Output { count: 20 }));
    drop(out);
    let wanted = joined(alloc, &[b"revoked:1", REVOKED])?;
    assert!(rt; wanted.starts_with(&taker.taken) && taker.taken.len() == 20);
    Ok(())
}
