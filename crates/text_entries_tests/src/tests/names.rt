//! The names that texts give to certificate authorities.

use crate::tests::current::after_both;
use crate::tests::lines::{has_fault, made};
use crate::tests::runs::{inputs, said, text};
use std::alloc::Global;
use std::process::Abort;
use test_fixtures::{CERT_LINE, GITHUB, GITHUB_LINE, HEADER, KEY_SECTION, OTHER_LINE, joined};
use text_run::{names_in, read_texts};

const BAD_NAME: &str = "text 14 BadName";

const OTHER_KEY: &str = "text 15 OtherKey";

const UNKNOWN_NAME: &str = "text 16 UnknownName";

const MARKED_WORD: &str = "text 17 MarkedWord";

const NO_KEY: &str = "text 1 Spec, spec 6 Key, line 1 NoKey";

// The line that makes the key of OTHER_LINE the current authority.
const CA_OF_OTHER: &[u8] = b"ca: ssh-ed25519 \
AAAAC3NzaC1lZDI1NTE5AAAAIBERERERERERERERERERERERERERERERERERERERERER\n";

// Lines with names, and the same without.
static SAME: [(&[&[u8]], &[&[u8]]); 14] = [
    (&[b"@o: ", OTHER_LINE], &[]),
    (&[b"@all serial: 5"], &[b"ca: all\nserial: 5"]),
    (&[b" @all\tID-HEX:61 # c\r"], &[b"ca: all\nid: a"]),
    (
        &[b"@o: ", OTHER_LINE, b" a comment\n@o serial: 7"],
        &[CA_OF_OTHER, b"serial: 7"],
    ),
    (
        &[b"\t@o.O_-9:", OTHER_LINE, b" # c\r\n@o.O_-9  SERIAL:  7-8"],
        &[CA_OF_OTHER, b"serial: 7-8"],
    ),
    // The current authority stays as it is, and none need be current.
    (
        &[b"@o: ", OTHER_LINE, b"\nca: all\n@o id: b\nid: a"],
        &[CA_OF_OTHER, b"id: b\nca: all\nid: a"],
    ),
    (
        &[b"ca: all\n@o: ", OTHER_LINE, b"\nid: a"],
        &[b"ca: all\nid: a"],
    ),
    (
        &[b"@o: ", OTHER_LINE, b"\nkey-blob: AQ==\n@o id: b"],
        &[CA_OF_OTHER, b"id: b\nkey-blob: AQ=="],
    ),
    // Two names of one key, and one name twice.
    (
        &[
            b"@o: ",
            OTHER_LINE,
            b"\n@p: ",
            OTHER_LINE,
            b" c\n@p id: b\n@o id: a",
        ],
        &[CA_OF_OTHER, b"id: b\nid: a"],
    ),
    (
        &[b"@o: ", OTHER_LINE, b"\n@o: ", OTHER_LINE, b" c\n@o id: b"],
        &[CA_OF_OTHER, b"id: b"],
    ),
    // Names differ in case, and one may begin another.
    (
        &[b"@o: ", OTHER_LINE, b"\n@O: ", GITHUB_LINE, b"\n@o id: b"],
        &[CA_OF_OTHER, b"id: b"],
    ),
    (
        &[b"@oo: ", GITHUB_LINE, b"\n@o: ", OTHER_LINE, b"\n@o id: b"],
        &[CA_OF_OTHER, b"id: b"],
    ),
    (
        &[
            b"@b: ",
            GITHUB_LINE,
            b"\n@a: ",
            OTHER_LINE,
            b"\n@c: ",
            GITHUB_LINE,
            b"\n@a id: b",
        ],
        &[CA_OF_OTHER, b"id: b"],
    ),
    (
        &[
            b"@0123456789012345678901234567890123456789012345678901234567890123: ",
            OTHER_LINE,
            b"\n@0123456789012345678901234567890123456789012345678901234567890123 id: b",
        ],
        &[CA_OF_OTHER, b"id: b"],
    ),
];

#[test]
fn lines_with_names(rt: HostRuntime) {
    let alloc = rt.alloc();
    for (i, (named, plain)) in SAME.iter().enumerate() {
        let named = joined(alloc, *named).expect(&rt, "there is memory");
        let plain = joined(alloc, *plain).expect(&rt, "there is memory");
        let list = made(&rt, alloc, &named).expect(&rt, "the names are right");
        let other = made(&rt, alloc, &plain).expect(&rt, "the text is right");
        assert!(rt; list == other, "in row {i}");
    }
}

// All authorities have a name from the beginning on.
#[test]
fn all_authorities(rt: HostRuntime) {
    let alloc = rt.alloc();
    let text = joined(alloc, &[b"@all serial: 5\n@all id: a\n", GITHUB_LINE]);
    let list = made(&rt, alloc, &text.expect(&rt, "there is memory"));
    let both: &[u8] = b"\x01\0\0\0\x1f\0\0\0\0\0\0\0\0\x20\0\0\0\x08\0\0\0\0\0\0\0\x05\
\x23\0\0\0\x05\0\0\0\x01a";
    let bytes = joined(alloc, &[&HEADER, both, KEY_SECTION]).expect(&rt, "there is memory");
    assert!(rt; list.expect(&rt, "the text is right") == bytes);
}

// The parts of a text, the number of its line that has the fault, and the fault.
static FAULTY: [(&[&[u8]], u64, &str); 34] = [
    (&[b"@: ", OTHER_LINE], 1, BAD_NAME),
    (&[b"@all: ", OTHER_LINE], 1, BAD_NAME),
    (&[b"@a+b: ", OTHER_LINE], 1, BAD_NAME),
    (&[b"@a/b: ", OTHER_LINE], 1, BAD_NAME),
    (&[b"@\xc3\xa4: ", OTHER_LINE], 1, BAD_NAME),
    (&[b"@a\0: ", OTHER_LINE], 1, BAD_NAME),
    (
        &[
            b"@01234567890123456789012345678901234567890123456789012345678901234: ",
            OTHER_LINE,
        ],
        1,
        BAD_NAME,
    ),
    // A name comes before its key.
    (&[b"@a+b: x"], 1, BAD_NAME),
    (&[b"@a:"], 1, NO_KEY),
    (&[b"@a: all"], 1, NO_KEY),
    (&[b"@a: cert-authority ", OTHER_LINE], 1, NO_KEY),
    (&[b"@a: ", CERT_LINE], 1, "text 2 Certificate"),
    (
        &[b"\n@a: ", OTHER_LINE, b"\n@a: ", GITHUB_LINE],
        3,
        OTHER_KEY,
    ),
    (&[b"@a: ", OTHER_LINE, b"\n@a: x"], 2, NO_KEY),
    (&[b"@a serial: 5"], 1, UNKNOWN_NAME),
    (&[b"@a: ", OTHER_LINE, b"\n@A serial: 5"], 2, UNKNOWN_NAME),
    (&[b"@a: ", OTHER_LINE, b"\n@aa serial: 5"], 2, UNKNOWN_NAME),
    (&[b"@aa: ", OTHER_LINE, b"\n@a serial: 5"], 2, UNKNOWN_NAME),
    (&[b"@ALL serial: 5"], 1, UNKNOWN_NAME),
    (&[b"@ serial: 5"], 1, UNKNOWN_NAME),
    // A name counts from its line on, and comes before its value.
    (&[b"@a id: b\n@a: ", OTHER_LINE], 1, UNKNOWN_NAME),
    (&[b"@a serial: x"], 1, UNKNOWN_NAME),
    (&[b"@all serial: 05"], 1, "text 11 LeadingZero"),
    (&[b"@all serial: 0"], 1, "text 1 Spec, spec 2 Zero"),
    (&[b"@all id: a#b"], 1, "text 6 CutId"),
    (&[b"@all id:"], 1, "text 1 Spec, spec 5 EmptyId"),
    (&[b"@all id-hex: 00"], 1, "text 9 ZeroInId"),
    (&[b"@all"], 1, MARKED_WORD),
    (&[b"@a key: ", OTHER_LINE], 1, MARKED_WORD),
    (&[b"@all ca: all"], 1, MARKED_WORD),
    (&[b"@all : ", OTHER_LINE], 1, MARKED_WORD),
    (&[b"@all=serial: 5"], 1, MARKED_WORD),
    // Markers of files of known hosts.
    (
        &[b"@cert-authority *.example.com ", OTHER_LINE],
        1,
        MARKED_WORD,
    ),
    (&[b"@revoked * ", OTHER_LINE], 1, MARKED_WORD),
];

#[test]
fn faults_of_names(rt: HostRuntime) {
    for (i, (parts, line, cause)) in FAULTY.iter().enumerate() {
        assert!(rt;
            has_fault(&rt, rt.alloc(), *parts, *line, *cause),
            "in row {i}"
        );
    }
}

// A name that a text gives is known in the next one, and one that it uses need not be given again.
#[test]
fn names_of_two_texts(rt: HostRuntime) {
    let alloc = rt.alloc();
    let first = joined(alloc, &[b"@o: ", OTHER_LINE]).expect(&rt, "there is memory");
    assert!(rt; after_both(&rt, alloc, &first, b"@o serial: 7\n@all serial: 9\n") == (2, None));
    let (held, fault) = after_both(&rt, alloc, &first, b"@o serial: 7\n@p serial: 9\n");
    assert!(rt; held == 1 && fault.is_some_and(|fault| fault.line == 2));
}

// The parts of two texts, and the line about the fault of the second one.
static TOLD: [(&[&[u8]], &[&[u8]], &[u8]); 17] = [
    (
        &[b"\n@user: ", OTHER_LINE],
        &[b"@user: ", GITHUB_LINE],
        b"line 1: the name \"user\" has another key: u, line 2 [text 15 OtherKey]\n",
    ),
    // The line of exactly this name is told, and the first one.
    (
        &[b"@users: ", OTHER_LINE, b"\n@user: ", OTHER_LINE],
        &[b"@user: ", OTHER_LINE, b"\n@user: ", GITHUB_LINE],
        b"line 2: the name \"user\" has another key: u, line 2 [text 15 OtherKey]\n",
    ),
    (
        &[b"# @user: ", OTHER_LINE, b"\nkey-blob: AQ=="],
        &[b"@user: ", OTHER_LINE, b"\n@user: ", GITHUB_LINE],
        b"line 2: the name \"user\" has another key: t, line 1 [text 15 OtherKey]\n",
    ),
    (
        &[b"@user: ", OTHER_LINE],
        &[b"\n@usr serial: 5"],
        b"line 2: no CA is named \"usr\" above: did you mean \"user\" (u, line 1)? \
[text 16 UnknownName]\n",
    ),
    (
        &[b"@User: ", OTHER_LINE],
        &[b"@user serial: 5"],
        b"line 1: no CA is named \"user\" above: did you mean \"User\" (u, line 1)? \
[text 16 UnknownName]\n",
    ),
    // It is given too late.
    (
        &[b"@host: ", OTHER_LINE],
        &[b"@user serial: 5\n@user: ", OTHER_LINE],
        b"line 1: no CA is named \"user\" above: did you mean \"user\" (t, line 2)? \
[text 16 UnknownName]\n",
    ),
    // A line of exactly this name is told before one of another name.
    (
        &[b"@ca-2024: ", OTHER_LINE],
        &[b"@ca-2025 serial: 5\n@ca-2025: ", OTHER_LINE],
        b"line 1: no CA is named \"ca-2025\" above: did you mean \"ca-2025\" (t, line 2)? \
[text 16 UnknownName]\n",
    ),
    // Neither the word for all authorities nor a name of no byte is meant.
    (
        &[b"@host: ", OTHER_LINE],
        &[b"@al serial: 5\n@all: ", OTHER_LINE],
        b"line 1: no CA is named \"al\" above [text 16 UnknownName]\n",
    ),
    (
        &[b"@host: ", OTHER_LINE],
        &[b"@h serial: 5\n@: ", OTHER_LINE],
        b"line 1: no CA is named \"h\" above [text 16 UnknownName]\n",
    ),
    (
        &[b"@host: ", OTHER_LINE],
        &[b"@ serial: 5\n@: ", OTHER_LINE],
        b"line 1: no CA has this name above [text 16 UnknownName]\n",
    ),
    // A name of 65 bytes is that of no CA.
    (
        &[b"@host: ", OTHER_LINE],
        &[b"@01234567890123456789012345678901234567890123456789012345678901234 id: a"],
        b"line 1: no CA has this name above [text 16 UnknownName]\n",
    ),
    (
        &[b"@host: ", OTHER_LINE],
        &[
            b"@0123456789012345678901234567890123456789012345678901234567890123 id: a\n",
            b"@01234567890123456789012345678901234567890123456789012345678901234: x",
        ],
        b"line 1: no CA is named \"0123456789012345678901234567890123456789012345678901234567890123\" \
above [text 16 UnknownName]\n",
    ),
    (
        &[b"@host: ", OTHER_LINE],
        &[b"@us\"er serial: 5"],
        b"line 1: no CA is named \"us\\\"er\" above [text 16 UnknownName]\n",
    ),
    (
        &[b"key-blob: AQ=="],
        &[b"@user: ca.pub"],
        b"line 1: the key itself stands here, not its file \
[text 1 Spec, spec 6 Key, line 1 NoKey]\n",
    ),
    (
        &[b"key-blob: AQ=="],
        &[b"@all serial: 12ab"],
        b"line 1: hexadecimal digits need 0x before them [text 1 Spec, spec 1 Number]\n",
    ),
    (
        &[b"key-blob: AQ=="],
        &[b"@all seral: 12"],
        b"line 1: \"seral\" is no word of a text: did you mean \"serial:\"? \
[text 17 MarkedWord]\n",
    ),
    (
        &[b"key-blob: AQ=="],
        &[b"@all key: 12"],
        b"line 1: behind @NAME comes a colon and a key, or serial:, id: or id-hex: \
[text 17 MarkedWord]\n",
    ),
];

// A key has its first name in order, whichever text gives it, and names of other keys are no names
// of it.
#[test]
fn names_by_keys(rt: HostRuntime) {
    let alloc = rt.alloc();
    let first: [&[u8]; 5] = [
        b"@p: ",
        GITHUB_LINE,
        b"\n@a: ",
        OTHER_LINE,
        b"\n@p serial: 5",
    ];
    let second: [&[u8]; 3] = [
        b"until 1969-01-01 @a id: x\n@o: ",
        GITHUB_LINE,
        b"\n@p id: b",
    ];
    let texts = [
        text(&rt, alloc, Some(&first)),
        text(&rt, alloc, Some(&second)),
    ];
    let names = names_in(alloc, 0, &texts)
        .ok()
        .expect(&rt, "there is memory");
    assert!(rt;
        names
            .name(GITHUB)
            .is_some_and(|name| name == b"o".as_slice())
    );
    assert!(rt; names.name(b"").is_none() && names.name(b"x").is_none());
    let none = names_in(alloc, 0, &[]).ok().expect(&rt, "there is memory");
    assert!(rt; none.name(GITHUB).is_none());
}

// A fault of a text is that of a list that is made of it.
#[test]
fn names_of_faulty_texts(rt: HostRuntime) {
    let alloc = rt.alloc();
    let texts = [text(&rt, alloc, Some(&[b"\n@o serial: 5"]))];
    let fault = names_in(alloc, 0, &texts)
        .err()
        .expect(&rt, "there is a fault");
    let line: &[u8] = b"krl: t: line 2: no CA is named \"o\" above [text 16 UnknownName]\n";
    assert!(rt; said(&rt, alloc, &fault, &texts).as_slice() == line);
}

// The line about the fault of the second of two texts, u and t.
fn told(rt: &impl Abort, alloc: Global, first: &[&[u8]], second: &[&[u8]]) -> Vec<u8> {
    let mut one = text(rt, alloc, Some(first));
    one.name = "u";
    let texts = [one, text(rt, alloc, Some(second))];
    let inputs = inputs(&texts, false);
    let fault = read_texts(alloc, &inputs)
        .err()
        .expect(rt, "there is a fault");
    said(rt, alloc, &fault, &texts)
}

#[test]
fn lines_about_names(rt: HostRuntime) {
    let alloc = rt.alloc();
    for (i, (first, second, line)) in TOLD.iter().enumerate() {
        let line = joined(alloc, &[b"krl: t: ", *line]).expect(&rt, "there is memory");
        assert!(rt; told(&rt, alloc, *first, *second) == line, "in row {i}");
    }
}
