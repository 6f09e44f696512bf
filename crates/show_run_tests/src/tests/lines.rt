//! The lines of single facts.

use krl_entries::{Fact as HeldFact, Revocations};
use krl_types::ItemKind;
use list_text::{Counts, Fact, Form, Side};
use serial_set::Span;
use span_sets::Held;
use std::alloc::Global;
use std::process::Abort;
use test_fixtures::{GITHUB, GITHUB_LINE, GITHUB_PRINT, joined};
use text_entries::{NamesByKey, Standing, read_text};

// Key IDs, and their lines.
const IDS: [(&[u8], &[u8]); 17] = [
    (b"bob", b"id: bob\n"),
    (
        b"eve@example.com,desk 2: \"x\"",
        b"id: eve@example.com,desk 2: \"x\"\n",
    ),
    (b"!", b"id: !\n"),
    (b"~", b"id: ~\n"),
    (b"a b", b"id: a b\n"),
    (b"eve#1", b"id-hex: 6576652331\n"),
    (b"", b"id-hex: \n"),
    (b" ", b"id-hex: 20\n"),
    (b" a", b"id-hex: 2061\n"),
    (b"a ", b"id-hex: 6120\n"),
    (b"a\tb", b"id-hex: 610962\n"),
    (b"a\r", b"id-hex: 610d\n"),
    (b"a\nb", b"id-hex: 610a62\n"),
    (b"\x1f", b"id-hex: 1f\n"),
    (b"\x7f", b"id-hex: 7f\n"),
    (b"\x80\xff", b"id-hex: 80ff\n"),
    (b"\0", b"id-hex: 00\n"),
];

// Key IDs that a reader of texts would take for others, and some that are almost so.
const LIKE_OTHERS: [(&[u8], &[u8]); 22] = [
    (b"\"x\"", b"id-hex: 227822\n"),
    (b"'x'", b"id-hex: 277827\n"),
    (b"\"\"", b"id-hex: 2222\n"),
    (b"''", b"id-hex: 2727\n"),
    (b"\"", b"id: \"\n"),
    (b"'", b"id: '\n"),
    (b"'x\"", b"id: 'x\"\n"),
    (b"\"x'", b"id: \"x'\n"),
    (b"\"x\" y", b"id: \"x\" y\n"),
    (b"x \"y\"", b"id: x \"y\"\n"),
    (b"a, b", b"id-hex: 612c2062\n"),
    (b", b", b"id-hex: 2c2062\n"),
    (b"a, \"b\"", b"id-hex: 612c20226222\n"),
    (
        b"eve@example.com, desk 2: \"x\"",
        b"id-hex: 657665406578616d706c652e636f6d2c206465736b20323a20227822\n",
    ),
    (b"a,b", b"id: a,b\n"),
    (b"a ,b", b"id: a ,b\n"),
    (b"a,", b"id: a,\n"),
    (b",", b"id: ,\n"),
    (b", ", b"id-hex: 2c20\n"),
    (b"ssh-rsa A", b"id-hex: 7373682d7273612041\n"),
    (b"ssh-rsa", b"id: ssh-rsa\n"),
    (b"ssh-rsa,A", b"id: ssh-rsa,A\n"),
];

// The lines of key IDs, as text and as a change.
fn all_spell(rt: &impl Abort, alloc: Global, rows: &[(&[u8], &[u8])]) {
    let mut line = Vec::new(alloc);
    for (i, (id, text)) in rows.iter().enumerate() {
        let fact = Fact::Held(HeldFact::Item(ItemKind::Id, b"", id));
        let made = Form::Text(None).write_fact(alloc, fact, &mut line);
        assert!(rt; made.is_ok() && line.as_slice() == *text, "in row {i}");
        let change = joined(alloc, &[b"+ ", text]).expect(rt, "there is memory");
        let made = Form::Change(Side::Added, None).write_fact(alloc, fact, &mut line);
        assert!(rt; made.is_ok() && line == change, "in row {i} as a change");
    }
}

#[test]
fn key_ids(rt: HostRuntime) {
    all_spell(&rt, rt.alloc(), &IDS);
}

#[test]
fn key_ids_like_others(rt: HostRuntime) {
    all_spell(&rt, rt.alloc(), &LIKE_OTHERS);
}

// Facts, and their lines as text and as JSON.
const FACTS: [(Fact<'static>, &[u8], &[u8]); 9] = [
    (Fact::Held(HeldFact::Authority(b"")), b"ca: all\n", b""),
    (
        Fact::Held(HeldFact::Authority(b"ssh")),
        b"ca-blob: c3No\n",
        b"",
    ),
    (
        Fact::Held(HeldFact::Item(ItemKind::Key, b"", b"\0")),
        b"key-blob: AA==\n",
        b"{\"key\":\"SHA256:bjQLnP+zepicpUTmu3gKLHiQHT+zNzh2hRGjBhevoB0\"}\n",
    ),
    (
        Fact::Held(HeldFact::Serials(b"", Span { lo: 9, hi: 9 })),
        b"serial: 9\n",
        b"{\"ca\":\"all\",\"serial\":[\"9\",\"9\"]}\n",
    ),
    (
        Fact::Held(HeldFact::Serials(b"", Span { lo: 100, hi: 199 })),
        b"serial: 100-199\n",
        b"{\"ca\":\"all\",\"serial\":[\"100\",\"199\"]}\n",
    ),
    (
        Fact::Held(HeldFact::Serials(
            b"",
            Span {
                lo: 1,
                hi: 18_446_744_073_709_551_615,
            },
        )),
        b"serial: 1-18446744073709551615\n",
        b"{\"ca\":\"all\",\"serial\":[\"1\",\"18446744073709551615\"]}\n",
    ),
    (
        Fact::Held(HeldFact::Item(ItemKind::Id, b"", b"b\"b")),
        b"id: b\"b\n",
        b"{\"ca\":\"all\",\"id\":\"b\\\"b\"}\n",
    ),
    (
        Fact::Held(HeldFact::Item(ItemKind::Sha1, b"", &[0; 20])),
        b"hash: SHA1:AAAAAAAAAAAAAAAAAAAAAAAAAAA\n",
        b"{\"hash\":\"SHA1:AAAAAAAAAAAAAAAAAAAAAAAAAAA\"}\n",
    ),
    (
        Fact::Held(HeldFact::Item(ItemKind::Sha256, b"", &[0; 32])),
        b"hash: SHA256:AAAAAAAAAAAAAAAAAAAAAAAAAAAAAAAAAAAAAAAAAAA\n",
        b"{\"hash\":\"SHA256:AAAAAAAAAAAAAAAAAAAAAAAAAAAAAAAAAAAAAAAAAAA\"}\n",
    ),
];

#[test]
fn facts(rt: HostRuntime) {
    let mut line = Vec::new(rt.alloc());
    for (i, (fact, text, object)) in FACTS.iter().enumerate() {
        let made = Form::Text(None).write_fact(rt.alloc(), *fact, &mut line);
        assert!(rt; made.is_ok() && line.as_slice() == *text, "in row {i}");
        let made = Form::Json(None).write_fact(rt.alloc(), *fact, &mut line);
        assert!(rt;
            made.is_ok() && line.as_slice() == *object,
            "in row {i} as JSON"
        );
    }
}

// The names that a text gives, by their keys.
fn names_in(rt: &impl Abort, alloc: Global, text: &[u8]) -> NamesByKey {
    let mut held: Revocations<Held> = Revocations::new(alloc);
    let mut standing = Standing::new(alloc, 0);
    assert!(rt; read_text(alloc, &mut held, &mut standing, text).is_ok());
    standing.names().by_key().expect(rt, "there is memory")
}

// Facts of an authority that has two names, and of all, and their lines as text and as JSON.
const NAMED: [(Fact<'static>, &[&[u8]], &[&[u8]]); 7] = [
    (
        Fact::Held(HeldFact::Authority(GITHUB)),
        &[b"@first: ", GITHUB_LINE, b" # ", GITHUB_PRINT, b"\n"],
        &[],
    ),
    (
        Fact::Held(HeldFact::Serials(GITHUB, Span { lo: 5, hi: 9 })),
        &[b"@first serial: 5-9\n"],
        &[
            b"{\"ca\":\"",
            GITHUB_PRINT,
            b"\",\"name\":\"first\",\"serial\":[\"5\",\"9\"]}\n",
        ],
    ),
    (
        Fact::Held(HeldFact::Item(ItemKind::Id, GITHUB, b"bob")),
        &[b"@first id: bob\n"],
        &[
            b"{\"ca\":\"",
            GITHUB_PRINT,
            b"\",\"name\":\"first\",\"id\":\"bob\"}\n",
        ],
    ),
    (
        Fact::Held(HeldFact::Item(ItemKind::Id, GITHUB, b"a, b")),
        &[b"@first id-hex: 612c2062\n"],
        &[
            b"{\"ca\":\"",
            GITHUB_PRINT,
            b"\",\"name\":\"first\",\"id\":\"a, b\"}\n",
        ],
    ),
    (
        Fact::Held(HeldFact::Item(ItemKind::Key, b"", GITHUB)),
        &[b"key: ", GITHUB_LINE, b" # ", GITHUB_PRINT, b"\n"],
        &[b"{\"key\":\"", GITHUB_PRINT, b"\"}\n"],
    ),
    (Fact::Held(HeldFact::Authority(b"")), &[b"ca: all\n"], &[]),
    (
        Fact::Held(HeldFact::Serials(b"", Span { lo: 7, hi: 7 })),
        &[b"serial: 7\n"],
        &[b"{\"ca\":\"all\",\"serial\":[\"7\",\"7\"]}\n"],
    ),
];

#[test]
fn named_authorities(rt: HostRuntime) {
    let alloc = rt.alloc();
    let parts: [&[u8]; 5] = [
        b"@second: ",
        GITHUB_LINE,
        b"\n@first: ",
        GITHUB_LINE,
        b"\n@other: ssh-ed25519 AAAAC3NzaC1lZDI1NTE5AAAAIBERERERERERERERERERERERERERERERERERERERERER",
    ];
    let text = joined(alloc, &parts).expect(&rt, "there is memory");
    let names = names_in(&rt, alloc, &text);
    let mut line = Vec::new(alloc);
    for (i, (fact, text, object)) in NAMED.iter().enumerate() {
        let made = Form::Text(Some(&names)).write_fact(alloc, *fact, &mut line);
        let wanted = joined(alloc, *text).expect(&rt, "there is memory");
        assert!(rt; made.is_ok() && line == wanted, "in row {i}");
        let made = Form::Unnamed(Some(&names)).write_fact(alloc, *fact, &mut line);
        assert!(rt;
            made.is_ok() && line == wanted,
            "in row {i} without the list's name"
        );
        let made = Form::Json(Some(&names)).write_fact(alloc, *fact, &mut line);
        let wanted = joined(alloc, *object).expect(&rt, "there is memory");
        assert!(rt; made.is_ok() && line == wanted, "in row {i} as JSON");
    }
}

// The mark of a side is before the name.
#[test]
fn named_changes(rt: HostRuntime) {
    let alloc = rt.alloc();
    let text = joined(alloc, &[b"@o: ", GITHUB_LINE]).expect(&rt, "there is memory");
    let names = names_in(&rt, alloc, &text);
    let mut line = Vec::new(alloc);
    let form = Form::Change(Side::Removed, Some(&names));
    let serial = Fact::Held(HeldFact::Serials(GITHUB, Span { lo: 1, hi: 1 }));
    let wanted: &[u8] = b"- @o serial: 1\n";
    assert!(rt; form.write_fact(alloc, serial, &mut line).is_ok() && line.as_slice() == wanted);
    let authority = Fact::Held(HeldFact::Authority(GITHUB));
    let parts: [&[u8]; 5] = [b"  @o: ", GITHUB_LINE, b" # ", GITHUB_PRINT, b"\n"];
    let wanted = joined(alloc, &parts).expect(&rt, "there is memory");
    assert!(rt; form.write_fact(alloc, authority, &mut line).is_ok() && line == wanted);
}

// The published key, and its line as an authority.
#[test]
fn a_key_with_its_fingerprint(rt: HostRuntime) {
    let mut line = Vec::new(rt.alloc());
    let authority = Fact::Held(HeldFact::Authority(GITHUB));
    let made = Form::Text(None).write_fact(rt.alloc(), authority, &mut line);
    let wanted = joined(
        rt.alloc(),
        &[b"ca: ", GITHUB_LINE, b" # ", GITHUB_PRINT, b"\n"],
    );
    assert!(rt; made.is_ok() && line == wanted.expect(&rt, "there is memory"));
    let id = Fact::Held(HeldFact::Item(ItemKind::Id, GITHUB, b"\xff"));
    let made = Form::Json(None).write_fact(rt.alloc(), id, &mut line);
    let parts: &[&[u8]] = &[b"{\"ca\":\"", GITHUB_PRINT, b"\",\"id_base64\":\"/w==\"}\n"];
    let wanted = joined(rt.alloc(), parts);
    assert!(rt; made.is_ok() && line == wanted.expect(&rt, "there is memory"));
}

// The serial numbers of two authorities that have all of them.
#[test]
fn exact_counts(rt: HostRuntime) {
    let all = Span {
        lo: 1,
        hi: 18_446_744_073_709_551_615,
    };
    let mut counts = Counts::NONE;
    counts.add(Fact::Held(HeldFact::Serials(b"a", all)));
    counts.add(Fact::Held(HeldFact::Serials(b"b", all)));
    assert!(rt; counts.serials == 36_893_488_147_419_103_230 && counts.entries == 2);
    let mut line = Vec::new(rt.alloc());
    let made = Form::Json(None).write_last(counts, &mut line);
    let wanted: &[u8] = b"{\"status\":\"done\",\"lists\":0,\"cas\":0,\
\"serials\":\"36893488147419103230\",\"ids\":0,\"keys\":0,\"hashes\":0}\n";
    assert!(rt; made.is_ok() && line.as_slice() == wanted);
}
