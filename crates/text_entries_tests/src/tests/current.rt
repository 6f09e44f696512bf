//! The authority that is current: until a key, a hash, a certificate or the end of the text.

use crate::tests::lines::{TODAY, has_fault, made};
use krl_core::Revocations;
use run_faults::SpecCause;
use span_sets::Held;
use std::alloc::Global;
use std::process::Abort;
use test_fixtures::{
    CERT_LINE, FIVE, GITHUB_LINE, GITHUB_PRINT, HEADER, ID_A, KEY_SECTION, OTHER_LINE, joined,
};
use text_entries::{Standing, TextCause, TextFault, read_text};

const NO_AUTHORITY: &str = "text 1 Spec, spec 4 NoAuthority";

// The parts of lines after which no authority is current.
static ENDS: [&[&[u8]]; 11] = [
    &[b"key: ", GITHUB_LINE],
    &[b"\tKEY:", GITHUB_LINE, b" c # d\r"],
    &[b"key: ", CERT_LINE],
    &[b"key-blob: AQ=="],
    &[b"sha1: ", GITHUB_LINE],
    &[b"sha256: ", GITHUB_LINE],
    &[b"hash: ", GITHUB_PRINT],
    &[b"hash: SHA1:AAAAAAAAAAAAAAAAAAAAAAAAAAA"],
    &[GITHUB_LINE, b" ca: all"],
    &[CERT_LINE],
    &[b" ", CERT_LINE, b" # c"],
];

// Lines that need an authority. The last one has another fault too, which counts less.
static UNDER: [&[u8]; 4] = [b"serial: 5", b"id: a", b"id-hex: 61", b"id-hex: xx"];

// Each line that needs an authority lacks one after these parts, in the line of this number.
fn all_lack(rt: &impl Abort, alloc: Global, before: [&[u8]; 3], number: u64, row: usize) {
    for under in UNDER {
        let parts: [&[u8]; 4] = [before[0], before[1], before[2], under];
        assert!(rt;
            has_fault(rt, alloc, &parts, number, NO_AUTHORITY),
            "in row {row}"
        );
    }
}

#[test]
fn none_after_a_key(rt: HostRuntime) {
    let alloc = rt.alloc();
    for (i, end) in ENDS.iter().enumerate() {
        let end = joined(alloc, *end).expect(&rt, "there is memory");
        all_lack(&rt, alloc, [b"ca: all\n", end.as_slice(), b"\n"], 3, i);
    }
}

// The comment in the fourth line gives no authority.
#[test]
fn none_later_after_a_key(rt: HostRuntime) {
    let alloc = rt.alloc();
    for (i, end) in ENDS.iter().enumerate() {
        let end = joined(alloc, *end).expect(&rt, "there is memory");
        let before: [&[u8]; 3] = [
            b"ca-blob: eA==\nserial: 7\n",
            end.as_slice(),
            b"\n# ca: all\n\n",
        ];
        all_lack(&rt, alloc, before, 6, i);
    }
}

#[test]
fn the_next_one_after_a_key(rt: HostRuntime) {
    let alloc = rt.alloc();
    for (i, end) in ENDS.iter().enumerate() {
        let end = joined(alloc, *end).expect(&rt, "there is memory");
        let first: [&[u8]; 3] = [b"ca: all\nserial: 5\nid: a\n", end.as_slice(), b"\n"];
        let again: [&[u8]; 3] = [
            b"ca: all\nserial: 5\n",
            end.as_slice(),
            b"\nca: all\nid-hex: 61\n",
        ];
        let first = joined(alloc, &first).expect(&rt, "there is memory");
        let again = joined(alloc, &again).expect(&rt, "there is memory");
        let list = made(&rt, alloc, &first);
        assert!(rt;
            list.is_ok() && made(&rt, alloc, &again) == list,
            "in row {i}"
        );
    }
}

// The parts of a text, and the sections of the list that it names.
static NAMED: [(&[&[u8]], &[&[u8]]); 8] = [
    (&[b"ca: all\n# c\n\nserial: 5"], &[FIVE]),
    (&[b"ca: all\n \t\r\n#key: c\n\t# c\r\nserial: 5"], &[FIVE]),
    (&[b"ca-blob: eA==\n\n# c\nca: all\n\nid: a"], &[ID_A]),
    // Serial numbers and key IDs end no authority.
    (
        &[b"ca: all\nserial: 5\nid: a\nserial: 5\nid-hex: 61\n\nserial: 5\nid: a"],
        &[FIVE_AND_A],
    ),
    // A key ends the authority of what follows, and not of what precedes.
    (
        &[b"ca: all\nserial: 5\n", GITHUB_LINE],
        &[FIVE, KEY_SECTION],
    ),
    (
        &[b"ca: all\nkey: ", GITHUB_LINE, b"\nca: all\nserial: 5"],
        &[FIVE, KEY_SECTION],
    ),
    (
        &[
            b"ca: ",
            OTHER_LINE,
            b"\nkey: ",
            GITHUB_LINE,
            b"\nca: all\nid: a",
        ],
        &[ID_A, KEY_SECTION],
    ),
    (
        &[b"key: ", GITHUB_LINE, b"\n\nca: all\n# c\nid: a\n"],
        &[ID_A, KEY_SECTION],
    ),
];

// Serial 5 and key ID `a` of all authorities.
const FIVE_AND_A: &[u8] = b"\x01\0\0\0\x1f\0\0\0\0\0\0\0\0\x20\0\0\0\x08\0\0\0\0\0\0\0\x05\
\x23\0\0\0\x05\0\0\0\x01a";

#[test]
fn what_lines_are_under(rt: HostRuntime) {
    for (i, (parts, sections)) in NAMED.iter().enumerate() {
        let text = joined(rt.alloc(), *parts).expect(&rt, "there is memory");
        let sections = joined(rt.alloc(), *sections).expect(&rt, "there is memory");
        let list = joined(rt.alloc(), &[&HEADER, &sections]).expect(&rt, "there is memory");
        assert!(rt; made(&rt, rt.alloc(), &text) == Ok(list), "in row {i}");
    }
}

// Texts, and the first line that lacks its authority.
static LACKING: [(&[u8], u64); 8] = [
    (b"key-blob: AQ==\nserial: 5", 2),
    (b"ca: all\nkey-blob: AQ==\nserial: 5", 3),
    (
        b"ca: all\nkey-blob: AQ==\nca: all\nkey-blob: AQ==\nid: a",
        5,
    ),
    (
        b"ca: all\nkey-blob: AQ==\nca: all\nserial: 5\nkey-blob: AQ==\nid: a",
        6,
    ),
    // The second key is the later one.
    (b"ca: all\nkey-blob: AQ==\nkey-blob: Ag==\nserial: 5", 4),
    (
        b"ca: all\nca-blob: eA==\nkey-blob: AQ==\n\n\nserial: 5\nid: a",
        6,
    ),
    (b"ca: all\r\nkey-blob: AQ==\r\nid-hex: 61\r\n", 3),
    (b"ca: all\nid: a\nkey-blob: AQ==\nid-hex: xx\n", 4),
];

#[test]
fn lines_that_lack_an_authority(rt: HostRuntime) {
    for (i, (text, line)) in LACKING.iter().enumerate() {
        let parts: [&[u8]; 1] = [text];
        assert!(rt;
            has_fault(&rt, rt.alloc(), &parts, *line, NO_AUTHORITY),
            "in row {i}"
        );
    }
}

/// The number of intervals that are held after two texts, and the fault of the second one.
pub fn after_both(
    rt: &impl Abort,
    alloc: Global,
    first: &[u8],
    second: &[u8],
) -> (u128, Option<TextFault>) {
    let mut held: Revocations<Held> = Revocations::new(alloc);
    let mut standing = Standing::new(alloc, TODAY);
    read_text(alloc, &mut held, &mut standing, first).expect(rt, "the first text is right");
    let fault = read_text(alloc, &mut held, &mut standing, second).err();
    (held.held(), fault)
}

// The fault of a line that lacks its authority.
fn lacking_at(line: u64) -> Option<TextFault> {
    Some(TextFault {
        line,
        cause: TextCause::Spec(SpecCause::NoAuthority),
    })
}

// The authority of a text is not that of the next one, and a key ends none in the next one.
#[test]
fn two_texts(rt: HostRuntime) {
    let alloc = rt.alloc();
    let first = b"ca: all\nserial: 5\n";
    assert!(rt; after_both(&rt, alloc, first, b"ca: all\nserial: 7\n") == (2, None));
    assert!(rt; after_both(&rt, alloc, first, b"serial: 7\n") == (1, lacking_at(1)));
    assert!(rt; after_both(&rt, alloc, first, b"# c\n\nid: a\n") == (1, lacking_at(3)));
    let first = b"ca: all\nserial: 5\nkey-blob: AQ==\n";
    assert!(rt; after_both(&rt, alloc, first, b"ca: all\nserial: 7\n") == (2, None));
    assert!(rt; after_both(&rt, alloc, first, b"serial: 7\n") == (1, lacking_at(1)));
}
