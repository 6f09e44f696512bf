//! Names that a new list no longer has.

use crate::tests::lines::made;
use crate::tests::runs::{inputs, said_made, text};
use byte_streams::Lent;
use krl_core::Revocations;
use list_making::Maker;
use span_sets::Held;
use std::alloc::Global;
use std::process::Abort;
use test_fixtures::{GITHUB_LINE, joined};
use text_entries::{Standing, read_text};
use text_run::{Inputs, Over, read_texts};

// The line about a list that names nothing, and that lost nothing.
const NOTHING: &[u8] = b"krl make: r.krl: version 1: nothing\n";

// The revocations that a text names.
fn held_of(rt: &impl Abort, alloc: Global, text: &[u8]) -> Revocations<Held> {
    let mut held: Revocations<Held> = Revocations::new(alloc);
    let mut standing = Standing::new(alloc, 0);
    read_text(alloc, &mut held, &mut standing, text).expect(rt, "the text has no fault");
    held
}

// The text of what is lost, and how the line about the list ends.
static LOST: [(&[u8], &[u8]); 9] = [
    (b"", b""),
    (b"ca: all\n", b""),
    (b"ca: all\nid: bob", b"; 1 key ID is no longer revoked"),
    (
        b"ca: all\nserial: 5",
        b"; 1 serial number is no longer revoked",
    ),
    (
        b"ca: all\nserial: 5-6",
        b"; 2 serial numbers are no longer revoked",
    ),
    (
        b"ca: all\nserial: 5\nid: bob",
        b"; 1 serial number, 1 key ID are no longer revoked",
    ),
    (
        b"ca: all\nserial: 1-0xffffffffffffffff\nid: a\nid: b",
        b"; 18446744073709551615 serial numbers, 2 key IDs are no longer revoked",
    ),
    (
        b"hash: SHA1:AAAAAAAAAAAAAAAAAAAAAAAAAAA",
        b"; 1 hashed key is no longer revoked",
    ),
    (
        b"hash: SHA256:AAAAAAAAAAAAAAAAAAAAAAAAAAAAAAAAAAAAAAAAAAA\nkey-blob: AAAA",
        b"; 1 key, 1 hashed key are no longer revoked",
    ),
];

#[test]
fn lines_say_what_is_lost(rt: HostRuntime) {
    let alloc = rt.alloc();
    for (i, (text, end)) in LOST.iter().enumerate() {
        let line = said_made(
            &rt,
            alloc,
            Revocations::new(alloc),
            held_of(&rt, alloc, text),
        );
        let all = joined(alloc, &[b"krl make: r.krl: version 1: nothing", end, b"\n"]);
        assert!(rt; line == all.expect(&rt, "there is memory"), "in row {i}");
    }
}

// The line about a list of the new text over one of the old text.
fn said_over(rt: &impl Abort, alloc: Global, over: Over, old: &[u8], new: &[u8]) -> Vec<u8> {
    let texts = [text(rt, alloc, Some(&[new]))];
    let inputs = Inputs {
        over,
        version: Some(7),
        ..inputs(&texts, false)
    };
    let list = read_texts(alloc, &inputs).expect(rt, "the text is right");
    let before = made(rt, alloc, old).expect(rt, "the text is right");
    let facts = list
        .make(alloc, Some(Lent::new(before.as_slice())))
        .expect(rt, "there is memory")
        .facts;
    said_made(rt, alloc, Revocations::new(alloc), facts.lost)
}

// An old text, a new one, and how the line about the list of the new one ends.
static OVER: [(&[u8], &[u8], &[u8]); 5] = [
    (b"ca: all\nserial: 5", b"ca: all\nserial: 5", b""),
    (b"ca: all\nserial: 5", b"ca: all\nserial: 4-6", b""),
    (
        b"ca: all\nserial: 4-6\nid: a",
        b"ca: all\nserial: 5",
        b"; 2 serial numbers, 1 key ID are no longer revoked",
    ),
    (
        b"key-blob: AAAA",
        b"ca: all\nid: a",
        b"; 1 key is no longer revoked",
    ),
    (b"", b"ca: all\nid: a", b""),
];

#[test]
fn lists_say_what_they_lost(rt: HostRuntime) {
    let alloc = rt.alloc();
    for (i, (old, new, end)) in OVER.iter().enumerate() {
        let line = said_over(&rt, alloc, Over::Version, old, new);
        let all = joined(alloc, &[b"krl make: r.krl: version 1: nothing", end, b"\n"]);
        assert!(rt; line == all.expect(&rt, "there is memory"), "in row {i}");
        let kept = said_over(&rt, alloc, Over::Contents, old, new);
        assert!(rt; kept.as_slice() == NOTHING, "in row {i}");
    }
}

#[test]
fn nothing_is_lost_of_a_list_that_is_not_read(rt: HostRuntime) {
    let alloc = rt.alloc();
    let new = joined(alloc, &[b"key: ", GITHUB_LINE]).expect(&rt, "there is memory");
    let line = said_over(
        &rt,
        alloc,
        Over::Nothing,
        b"ca: all\nserial: 5",
        new.as_slice(),
    );
    assert!(rt; line.as_slice() == NOTHING);
}
