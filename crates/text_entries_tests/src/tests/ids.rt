//! The lines of key IDs: quotes and commas, and that what is shown is read back.

use crate::tests::lines::{has_fault, made};
use krl_core::{Header, Revocations};
use krl_writer::krl_text;
use list_text::{Fact, Form};
use span_sets::Held;
use ssh_wire::Bytes;
use std::alloc::Global;
use std::process::Abort;
use test_fixtures::joined;
use text_entries::{Standing, read_text};

const QUOTED: &str = "text 12 QuotedId";

const SEVERAL: &str = "text 13 SeveralIds";

const DATED: &str = "text 21 DateInId";

// The values of lines, and how their fault prints.
static REFUSED: [(&[u8], &str); 28] = [
    (b"\"bob\"", QUOTED),
    (b"\"\"", QUOTED),
    (b"'x'", QUOTED),
    (b"''", QUOTED),
    (b"\"a b\"", QUOTED),
    (b"\"'x'\"", QUOTED),
    (b"'it's'", QUOTED),
    (b"\"x\" # c", QUOTED),
    (b"a, b", SEVERAL),
    (b"a,  b", SEVERAL),
    (b"a , b", SEVERAL),
    (b", b", SEVERAL),
    (b"a,b, c", SEVERAL),
    (b"a, b, c # d", SEVERAL),
    (b"'a', b", SEVERAL),
    (b"bob until 2026-11-14", DATED),
    (b"until 2026-11-14", DATED),
    (b"bob UNTIL: 2026-02-30", DATED),
    (b"bob until=9999-99-99.", DATED),
    (b"xuntil\t2026-11-14", "text 8 ControlInId"),
    (b"xuntil2026-11-14 # c", DATED),
    // The first fault of several.
    (b"\"a\", \"b\"", QUOTED),
    (b"a, b until 2026-11-14", SEVERAL),
    (b"'until 2026-11-14'", QUOTED),
    (b"ssh-rsa A, b", "text 10 KeyAsId"),
    (b"a,\tb", "text 8 ControlInId"),
    (b"\"a\tb\"", "text 8 ControlInId"),
    (b"\"a#\"", "text 6 CutId"),
];

#[test]
fn refused_key_ids(rt: HostRuntime) {
    for (i, (given, cause)) in REFUSED.iter().enumerate() {
        let parts: [&[u8]; 3] = [b"ca: all\n\nid: ", given, b" \r\nid: a"];
        assert!(rt; has_fault(&rt, rt.alloc(), &parts, 3, cause), "in row {i}");
    }
}

// These faults need no authority to be found.
#[test]
fn before_any_authority(rt: HostRuntime) {
    assert!(rt; has_fault(&rt, rt.alloc(), &[b"id: \"bob\""], 1, QUOTED));
    assert!(rt; has_fault(&rt, rt.alloc(), &[b"id: a, b"], 1, SEVERAL));
    assert!(rt; has_fault(&rt, rt.alloc(), &[b"id: until 2026-11-14"], 1, DATED));
}

// One key ID of all authorities is held.
fn one_id(rt: &impl Abort, alloc: Global, id: &[u8]) -> Revocations<Held> {
    let mut held: Revocations<Held> = Revocations::new(alloc);
    held.add_id(b"", id).expect(rt, "there is memory");
    held
}

// The list of version 1 that names what is held.
fn list_of(rt: &impl Abort, alloc: Global, held: &Revocations<Held>) -> Vec<u8> {
    let header = Header {
        version: 1,
        date: 0,
        comment: Bytes::from_vec(Vec::new(alloc)),
    };
    krl_text(alloc, &header, held).expect(rt, "the list is short")
}

// The values of lines, and the key IDs that they name.
static TAKEN: [(&[u8], &[u8]); 16] = [
    (b"\"", b"\""),
    (b"'", b"'"),
    (b"'x\"", b"'x\""),
    (b"\"x'", b"\"x'"),
    (b"\"bob", b"\"bob"),
    (b"bob'", b"bob'"),
    (b"\"a\" b", b"\"a\" b"),
    (b"a \"b\"", b"a \"b\""),
    (b"`x`", b"`x`"),
    (b"a,b", b"a,b"),
    (b"a ,b", b"a ,b"),
    (b",", b","),
    (b"a,,b", b"a,,b"),
    // Nothing follows this comma: the blank belongs to no key ID.
    (b"a, ", b"a,"),
    (b"a, # b", b"a,"),
    (b"\"x # y\"", b"\"x"),
];

#[test]
fn key_ids_as_they_are(rt: HostRuntime) {
    let alloc = rt.alloc();
    for (i, (given, id)) in TAKEN.iter().enumerate() {
        let parts: [&[u8]; 2] = [b"ca: all\nid: ", given];
        let text = joined(alloc, &parts).expect(&rt, "there is memory");
        let list = list_of(&rt, alloc, &one_id(&rt, alloc, id));
        assert!(rt; made(&rt, alloc, &text) == Ok(list), "in row {i}");
    }
}

// Key IDs, and their lines in the text of a list.
static SHOWN: [(&[u8], &[u8]); 23] = [
    (b"\"x\"", b"id-hex: 227822"),
    (b"'x'", b"id-hex: 277827"),
    (b"\"\"", b"id-hex: 2222"),
    (b"''", b"id-hex: 2727"),
    (b"a, b", b"id-hex: 612c2062"),
    (b", b", b"id-hex: 2c2062"),
    (b"a, \"b\"", b"id-hex: 612c20226222"),
    (b", ", b"id-hex: 2c20"),
    (b"ssh-rsa A", b"id-hex: 7373682d7273612041"),
    (
        b"until 2026-11-14",
        b"id-hex: 756e74696c20323032362d31312d3134",
    ),
    (
        b"x until:2026-99-14y",
        b"id-hex: 7820756e74696c3a323032362d39392d313479",
    ),
    (b"until 2026-11-1", b"id: until 2026-11-1"),
    (
        b"until, 2026-11-14",
        b"id-hex: 756e74696c2c20323032362d31312d3134",
    ),
    (b"til 2026-11-14", b"id: til 2026-11-14"),
    (b"\"", b"id: \""),
    (b"'", b"id: '"),
    (b"\"x'", b"id: \"x'"),
    (b"'x\"", b"id: 'x\""),
    (b"\"x\" y", b"id: \"x\" y"),
    (b"a,b", b"id: a,b"),
    (b"a ,b", b"id: a ,b"),
    (b"a,", b"id: a,"),
    (b",", b"id: ,"),
];

// The text of what is held.
fn text_of(rt: &impl Abort, alloc: Global, held: &Revocations<Held>) -> Vec<u8> {
    let mut text = Vec::new(alloc);
    let mut line = Vec::new(alloc);
    for fact in held.facts() {
        Form::Text(None)
            .write_fact(alloc, Fact::Held(fact), &mut line)
            .expect(rt, "there is memory");
        text.extend_from_slice(&line).expect(rt, "there is memory");
    }
    text
}

#[test]
fn shown_and_read_back(rt: HostRuntime) {
    let alloc = rt.alloc();
    for (i, (id, line)) in SHOWN.iter().enumerate() {
        let held = one_id(&rt, alloc, id);
        let text = text_of(&rt, alloc, &held);
        let parts: [&[u8]; 3] = [b"ca: all\n", line, b"\n"];
        let wanted = joined(alloc, &parts).expect(&rt, "there is memory");
        assert!(rt; text == wanted, "in row {i}");
        let list = list_of(&rt, alloc, &held);
        assert!(rt; made(&rt, alloc, &text) == Ok(list), "row {i} is read back");
    }
}

// Several lists, each of whose texts ends in a key, are read back from their joined texts.
#[test]
fn joined_texts_are_read_back(rt: HostRuntime) {
    let alloc = rt.alloc();
    let mut one = one_id(&rt, alloc, b"a, b");
    one.add_key(b"\x01").expect(&rt, "there is memory");
    let mut other = one_id(&rt, alloc, b"'x'");
    other.add_key(b"\x02").expect(&rt, "there is memory");
    let first = text_of(&rt, alloc, &one);
    let second = text_of(&rt, alloc, &other);
    let text = joined(alloc, &[&first, &second]).expect(&rt, "there is memory");
    one.add_id(b"", b"'x'").expect(&rt, "there is memory");
    one.add_key(b"\x02").expect(&rt, "there is memory");
    let mut held: Revocations<Held> = Revocations::new(alloc);
    let mut standing = Standing::new(alloc, 0);
    assert!(rt; read_text(alloc, &mut held, &mut standing, &text).is_ok());
    assert!(rt; list_of(&rt, alloc, &held) == list_of(&rt, alloc, &one));
}
