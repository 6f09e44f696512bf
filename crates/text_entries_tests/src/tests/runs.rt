//! Lists that are made of texts, and the lines about them.

use byte_streams::Lent;
use krl_core::Revocations;
use list_making::Maker;
use run_faults::{Cause, FileFault};
use span_sets::Held;
use ssh_wire::Bytes;
use std::alloc::Global;
use std::process::Abort;
use test_fixtures::{FIVE, GITHUB_LINE, HEADER, KEY_SECTION, joined};
use text_entries::NamesByKey;
use text_run::{Facts, Inputs, MakeFault, Over, Text, fault_line, made_line, read_texts};

/// A text of these parts, by the name `t`; without parts it cannot be opened.
pub fn text(rt: &impl Abort, alloc: Global, parts: Option<&[&[u8]]>) -> Text<'static> {
    let content = match parts {
        Some(parts) => Ok(Bytes::from_vec(joined(alloc, parts).expect(rt, "there is memory"))),
        None => Err(Cause::File(FileFault::Open)),
    };
    Text {
        name: "t",
        is_file: true,
        content,
    }
}

/// The list `r.krl` that is made of these texts.
pub fn inputs<'a>(texts: &'a [Text<'a>], allow_empty: bool) -> Inputs<'a> {
    Inputs {
        name: "r.krl",
        over: Over::Version,
        version: None,
        date: 0,
        comment: None,
        allow_empty,
        texts,
    }
}

/// The line about a fault of these texts.
pub fn said<'a>(
    rt: &impl Abort,
    alloc: Global,
    fault: &MakeFault<'_>,
    texts: &'a [Text<'a>],
) -> Vec<u8> {
    fault_line(alloc, fault, texts).expect(rt, "there is memory")
}

/// The line about the list `r.krl` with these revocations, over one that had the others too.
pub fn said_made(
    rt: &impl Abort,
    alloc: Global,
    revocations: Revocations<Held>,
    lost: Revocations<Held>,
) -> Vec<u8> {
    let facts = Facts {
        version: 1,
        revocations,
        lost,
        over: 0,
        names: NamesByKey::new(alloc),
    };
    made_line(alloc, "r.krl", &facts).expect(rt, "there is memory")
}

#[test]
fn of_two_texts(rt: HostRuntime) {
    let alloc = rt.alloc();
    let texts = [
        text(&rt, alloc, Some(&[b"ca: all\nserial: 5\n"])),
        text(&rt, alloc, Some(&[b"key: ", GITHUB_LINE])),
    ];
    let inputs = inputs(&texts, false);
    let list = read_texts(alloc, &inputs).expect(&rt, "the texts are right");
    let made = list
        .make(alloc, None::<Lent>)
        .expect(&rt, "there is memory");
    let bytes = joined(alloc, &[&HEADER, FIVE, KEY_SECTION]).expect(&rt, "there is memory");
    assert!(rt; made.bytes == bytes);
    let line = said_made(&rt, alloc, list.revocations, Revocations::new(alloc));
    let text: &[u8] = b"krl make: r.krl: version 1: 1 CA, 1 serial number, 1 key\n";
    assert!(rt; line.as_slice() == text);
}

// The parts of texts, and the line about their fault.
static REFUSED: [(&[Option<&[&[u8]]>], &[u8]); 6] = [
    (
        &[Some(&[b"ca: all\n\n"])],
        b"krl: r.krl: the list would revoke nobody: no text has an entry, or each is over \
[make 1 Empty]\n",
    ),
    (
        &[],
        b"krl: r.krl: the list would revoke nobody: no text has an entry, or each is over \
[make 1 Empty]\n",
    ),
    (
        &[Some(&[b"ca: all\nid: a\nid: b#"])],
        b"krl: t: line 3: a # with no blank before it would cut the key ID short: use id-hex: \
[text 6 CutId]\n",
    ),
    // No authority is current in the second text.
    (
        &[Some(&[b"ca: all\nid: a\n"]), Some(&[b"id: b\n"])],
        b"krl: t: line 1: no CA is given: by @NAME before the word, or by a ca: line with no key \
or hash between [text 1 Spec, spec 4 NoAuthority]\n",
    ),
    // Nor is one in the second text after a key of its own.
    (
        &[
            Some(&[b"ca: all\nid: a\n"]),
            Some(&[b"ca: all\n\nkey-blob: AQ==\nserial: 5\n"]),
        ],
        b"krl: t: line 4: no CA is given: by @NAME before the word, or by a ca: line with no key \
or hash between [text 1 Spec, spec 4 NoAuthority]\n",
    ),
    (
        &[Some(&[b"ca: all\nid: a\n"]), None],
        b"krl: t: it cannot be opened [file 1 Open]\n",
    ),
];

#[test]
fn faults(rt: HostRuntime) {
    let alloc = rt.alloc();
    for (i, (parts, line)) in REFUSED.iter().enumerate() {
        let mut texts = Vec::new(alloc);
        for part in *parts {
            texts
                .push(text(&rt, alloc, *part))
                .expect(&rt, "there is memory");
        }
        let inputs = inputs(texts.as_slice(), false);
        let fault = read_texts(alloc, &inputs)
            .err()
            .expect(&rt, "there is a fault");
        assert!(rt;
            said(&rt, alloc, &fault, inputs.texts).as_slice() == *line,
            "in row {i}"
        );
    }
}

// A text, whether it is a regular file, and whether it is refused since it has no entry.
static MUTE: [(&[u8], bool, bool); 11] = [
    (b"", true, true),
    (b" \t\r\n\n", true, true),
    (b"# c", true, false),
    (b"# c", false, true),
    (b"ca: all", true, false),
    (b" CA:all\n", true, false),
    (b"ca-blob: eA==", true, false),
    (b"ca: all # c\n", false, true),
    (b"", false, true),
    (b"ca: all\n\nserial: 5", false, false),
    (b"\nkey-blob: eA== # ca: all", false, false),
];

// The line about the fault of a text beside one that has an entry, or nothing.
fn said_beside(rt: &impl Abort, alloc: Global, bytes: &[u8], is_file: bool) -> Vec<u8> {
    let mut one = text(rt, alloc, Some(&[bytes]));
    one.is_file = is_file;
    let texts = [text(rt, alloc, Some(&[b"key-blob: AQ=="])), one];
    let inputs = inputs(&texts, false);
    let fault = read_texts(alloc, &inputs).err();
    if let Some(fault) = &fault {
        return said(rt, alloc, fault, inputs.texts);
    }
    Vec::new(alloc)
}

#[test]
fn texts_without_an_entry(rt: HostRuntime) {
    let alloc = rt.alloc();
    for (i, (bytes, is_file, is_refused)) in MUTE.iter().enumerate() {
        let line = said_beside(&rt, alloc, *bytes, *is_file);
        let want: &[u8] = if *is_refused {
            b"krl: t: it has no entry, which --allow-empty allows [make 2 NoEntry]\n"
        } else {
            b""
        };
        assert!(rt; line.as_slice() == want, "in row {i}");
    }
}

// A text, its line with a misspelt word, that word as it is shown, and the word that was meant.
static MISSPELT: [(&[u8], &[u8], &[u8], &[u8]); 28] = [
    (b"serials: 5", b"1", b"serials", b"serial"),
    (b"ca: all\n# c\nseria: 5", b"3", b"seria", b"serial"),
    (b"\tSERIALS: 5\r\n", b"1", b"SERIALS", b"serial"),
    (b"ke: x", b"1", b"ke", b"key"),
    (b"ids: a", b"1", b"ids", b"id"),
    (b"ca_blob: eA==", b"1", b"ca_blob", b"ca-blob"),
    (b"sha255: x", b"1", b"sha255", b"sha256"),
    // Two neighbouring letters are exchanged.
    (b"serail: 5", b"1", b"serail", b"serial"),
    (b"SEIRAL: 5", b"1", b"SEIRAL", b"serial"),
    (b"kye: x", b"1", b"kye", b"key"),
    (b"hsah: x", b"1", b"hsah", b"hash"),
    (b"Ac: all", b"1", b"Ac", b"ca"),
    (b"idh-ex: 61", b"1", b"idh-ex", b"id-hex"),
    // The first of two words.
    (b"ia: x", b"1", b"ia", b"id"),
    // No byte of a text is printed that a terminal obeys, and none ends the quotes.
    (b"ca\x1b: all", b"1", b"ca\\x1b", b"ca"),
    (b"i\"d: a", b"1", b"i\\\"d", b"id"),
    // Only the colon is missing, or not right behind the word.
    (b"ca ssh-ed25519 AQ==", b"1", b"ca", b"ca"),
    (b"ca: all\nserial 5", b"2", b"serial", b"serial"),
    (b"SERIALS : 5", b"1", b"SERIALS", b"serial"),
    (b"Serial\t: 5", b"1", b"Serial", b"serial"),
    (b"id-hex", b"1", b"id-hex", b"id-hex"),
    (b"serials", b"1", b"serials", b"serial"),
    // Another byte instead of the colon.
    (b"ca= all", b"1", b"ca", b"ca"),
    (b"KEY=x:y z", b"1", b"KEY", b"key"),
    (b"ca; all", b"1", b"ca;", b"ca"),
    (b"ca. all", b"1", b"ca.", b"ca"),
    (b"hash SHA256:x", b"1", b"hash", b"hash"),
    // The fault is in the third line, and a later line has one too.
    (b"ca: all\n\nkeys: x\nhashs: x", b"3", b"keys", b"key"),
];

// Lines with a word that is two letters off, and with one behind something.
static UNKNOWN: [&[u8]; 10] = [
    b"Serals: 5",
    b"sreail: 5",
    b"ahhs: x",
    b"yek: x",
    b"\xef\xbbca: all",
    b"seri#ls: 5",
    b"no-pty,ca ssh-ed25519 AQ==",
    b"=ca: all",
    b"\"ca\": all",
    b"user",
];

// Lines that begin with a word of a text or with the type of a key, but have no key.
static KEYLESS: [&[u8]; 8] = [
    b"ca: ids: 5",
    b"ca: key",
    b"key:",
    b"ssh-ed25519",
    b"key: alice.pub bob.pub",
    b"key: alice",
    b"SHA256:x of alice",
    b"sha256:x",
];

// Lines whose fault says what they may be meant as: the text, its line, and what is said.
static MEANT: [(&[u8], &[u8], &[u8]); 15] = [
    (b"SHA256:AAAA", b"1", NO_HASH),
    (b"# c\n\tSHA1:AAAA \r\n", b"2", NO_HASH),
    (b"key: alice.pub", b"1", NO_FILE),
    (b"ca: all\nkey: /etc/ssh/host", b"2", NO_FILE),
    (b"CA: ~/ca # the CA", b"1", NO_FILE),
    (b"sha1: ./alice", b"1", NO_FILE),
    (b"sha256: ../alice.pub", b"1", NO_FILE),
    (b"sha256:alice.pub", b"1", NO_FILE),
    (b"\xef\xbb\xbfca: all", b"1", MARKED),
    (b"\xef\xbb\xbf# users\nca: all", b"1", MARKED),
    (b"\xef\xbb\xbf", b"1", MARKED),
    (b"ca: all\nid: a\rid: b", b"2", CONTROL),
    (b"ca: all\nid-hex: 00", b"2", ZERO),
    (b"ca: all\nid: ssh-ed25519 AAAA alice", b"2", KEY),
    (b"ca: all\n\xef\xbb\xbf ca: all", b"2", UNKNOWN_WORD),
];

// The same for serial numbers, for key IDs that may be others, and for a CA that is not current.
static SLIPS: [(&[u8], &[u8], &[u8]); 22] = [
    (b"ca: all\nserial: 010", b"2", LEADING_ZERO),
    (b"ca: all\n\nserial: 1 - 010 # c", b"3", LEADING_ZERO),
    (b"ca: all\nserial: 1f3", b"2", HEXADECIMAL),
    (b"ca: all\nSERIAL:\tE # c\r", b"2", HEXADECIMAL),
    (b"ca: all\nserial: 1f - 2f", b"2", HEXADECIMAL),
    (b"ca: all\nserial: 1f\t-32", b"2", HEXADECIMAL),
    (b"ca: all\nserial: 0x1f-2e", b"2", HEXADECIMAL),
    (b"ca: all\nserial: 0f", b"2", HEXADECIMAL),
    (b"ca: all\nserial: 0x", b"2", NUMBER),
    (b"ca: all\nserial: 0x1g", b"2", NUMBER),
    (b"ca: all\nserial: 1g", b"2", NUMBER),
    (b"ca: all\nserial: 1f 3", b"2", NUMBER),
    (b"ca: all\nserial:", b"2", NUMBER),
    (b"ca: all\nserial: -", b"2", NUMBER),
    (b"ca: all\nserial: 99999999999999999999", b"2", NUMBER),
    (b"ca: all\nserial: 1-99999999999999999999", b"2", NUMBER),
    (b"ca: all\nserial: 0", b"2", ZERO_SERIAL),
    (b"ca: all\nid: \"bob\"", b"2", QUOTED),
    (b"ca: all\nid: a, b", b"2", SEVERAL),
    (b"serial: 1f3", b"1", NO_CA),
    (b"ca: all\nkey-blob: AQ==\nid: a", b"3", NO_CA),
    (
        b"ca: all\nserial: 5\nkey-blob: AQ==\n\nid-hex: 6",
        b"5",
        NO_CA,
    ),
];

const LEADING_ZERO: &[u8] =
    b"a serial number has a leading zero: OpenSSH would read octal digits [text 11 LeadingZero]";

const HEXADECIMAL: &[u8] = b"hexadecimal digits need 0x before them [text 1 Spec, spec 1 Number]";

const NUMBER: &[u8] = b"a serial number is a number below 2^64 [text 1 Spec, spec 1 Number]";

const ZERO_SERIAL: &[u8] = b"serial number 0 names no certificate [text 1 Spec, spec 2 Zero]";

const QUOTED: &[u8] =
    b"a key ID has no quotes around it: use id-hex: for one that has them [text 12 QuotedId]";

const SEVERAL: &[u8] = b"a line has one key ID: use id-hex: for one that has a comma and a blank \
[text 13 SeveralIds]";

const NO_CA: &[u8] = b"no CA is given: by @NAME before the word, or by a ca: line with no key or \
hash between [text 1 Spec, spec 4 NoAuthority]";

const NO_HASH: &[u8] =
    b"a fingerprint needs \"hash:\" before it [text 1 Spec, spec 6 Key, line 1 NoKey]";

const NO_FILE: &[u8] =
    b"the key itself stands here, not its file [text 1 Spec, spec 6 Key, line 1 NoKey]";

const MARKED: &[u8] = b"the file begins with a byte order mark [text 7 UnknownWord]";

const CONTROL: &[u8] = b"a key ID has a control character, such as a tab or a carriage return: \
use id-hex: [text 8 ControlInId]";

const ZERO: &[u8] = b"OpenSSH takes no key ID with a zero byte: use serial: [text 9 ZeroInId]";

const KEY: &[u8] = b"a key stands where a key ID belongs: use key:, or id-hex: for a key ID that \
begins so [text 10 KeyAsId]";

const UNKNOWN_WORD: &[u8] = b"a line begins with ca:, ca-blob:, serial:, id:, id-hex:, key:, \
key-blob:, sha1:, sha256: or hash:, with @NAME, or with the type of a key, and nothing may be \
before it, such as options [text 7 UnknownWord]";

// The line about the fault of one text.
fn said_of(rt: &impl Abort, alloc: Global, bytes: &[u8]) -> Vec<u8> {
    let texts = [text(rt, alloc, Some(&[bytes]))];
    let inputs = inputs(&texts, false);
    let fault = read_texts(alloc, &inputs)
        .err()
        .expect(rt, "there is a fault");
    said(rt, alloc, &fault, &texts)
}

#[test]
fn misspelt_words(rt: HostRuntime) {
    let alloc = rt.alloc();
    for (i, (text, line, word, meant)) in MISSPELT.iter().enumerate() {
        let parts: [&[u8]; 7] = [
            b"krl: t: line ",
            line,
            b": \"",
            word,
            b"\" is no word of a text: did you mean \"",
            meant,
            b":\"? [text 7 UnknownWord]\n",
        ];
        let wanted = joined(alloc, &parts).expect(&rt, "there is memory");
        assert!(rt; said_of(&rt, alloc, text) == wanted, "in row {i}");
    }
}

// The line about the fault of each text, by the number of its line and what is said.
fn each_says(rt: &impl Abort, alloc: Global, rows: &[(&[u8], &[u8], &[u8])]) {
    for (i, (text, line, said)) in rows.iter().enumerate() {
        let parts: [&[u8]; 5] = [b"krl: t: line ", line, b": ", said, b"\n"];
        let wanted = joined(alloc, &parts).expect(rt, "there is memory");
        assert!(rt; said_of(rt, alloc, text) == wanted, "in row {i}");
    }
}

#[test]
fn what_lines_may_be_meant_as(rt: HostRuntime) {
    each_says(&rt, rt.alloc(), &MEANT);
}

#[test]
fn slips_of_values(rt: HostRuntime) {
    each_says(&rt, rt.alloc(), &SLIPS);
}

// The line about the one fault of each of these texts.
fn all_say(rt: &impl Abort, alloc: Global, texts: &[&[u8]], line: &[u8]) {
    for (i, text) in texts.iter().enumerate() {
        assert!(rt; said_of(rt, alloc, text).as_slice() == line, "in row {i}");
    }
}

#[test]
fn unknown_words(rt: HostRuntime) {
    let line = joined(rt.alloc(), &[b"krl: t: line 1: ", UNKNOWN_WORD, b"\n"]);
    let line = line.expect(&rt, "there is memory");
    all_say(&rt, rt.alloc(), &UNKNOWN, line.as_slice());
}

#[test]
fn lines_without_a_key(rt: HostRuntime) {
    let line =
        b"krl: t: line 1: no key type stands there [text 1 Spec, spec 6 Key, line 1 NoKey]\n";
    all_say(&rt, rt.alloc(), &KEYLESS, line);
}

#[test]
fn an_empty_list(rt: HostRuntime) {
    let alloc = rt.alloc();
    let inputs = inputs(&[], true);
    let list = read_texts(alloc, &inputs).expect(&rt, "it may be empty");
    let made = list
        .make(alloc, None::<Lent>)
        .expect(&rt, "there is memory");
    assert!(rt; made.bytes.as_slice() == HEADER.as_slice());
    let line = said_made(&rt, alloc, list.revocations, Revocations::new(alloc));
    assert!(rt; line.as_slice() == b"krl make: r.krl: version 1: nothing\n".as_slice());
}
