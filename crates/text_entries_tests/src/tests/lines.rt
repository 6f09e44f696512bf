//! The lines of texts: what they name, and their faults.

use krl_core::{Header, Revocations};
use krl_writer::krl_text;
use span_sets::Held;
use ssh_wire::Bytes;
use std::alloc::Global;
use std::process::Abort;
use test_fixtures::{
    CERT_LINE, FIVE, GITHUB_LINE, GITHUB_PRINT, HEADER, ID_A, KEY_SECTION, OTHER_LINE,
    SHA256_SECTION, joined,
};
use text_entries::{Standing, TextFault, read_text};

/// The day of the tests, 2026-11-15, by its number from 1970-01-01 on.
pub const TODAY: u64 = 20_772;

/// The list of version 1 that names what a text names, or the fault of the text.
pub fn made(rt: &impl Abort, alloc: Global, text: &[u8]) -> Result<Vec<u8>, TextFault> {
    let mut held: Revocations<Held> = Revocations::new(alloc);
    read_text(alloc, &mut held, &mut Standing::new(alloc, TODAY), text)?;
    let header = Header {
        version: 1,
        date: 0,
        comment: Bytes::from_vec(Vec::new(alloc)),
    };
    Ok(krl_text(alloc, &header, &held).expect(rt, "the list is short"))
}

// The parts of a text, and the sections of the list that it names.
static NAMED: [(&[&[u8]], &[&[u8]]); 28] = [
    (&[b""], &[]),
    (&[b"# a comment\n \t\r\n"], &[]),
    (&[b"ca: all"], &[]),
    (&[b"ca: all\nserial: 5"], &[FIVE]),
    (&[b"\tCA:all\r\n SERIAL:5 # since 2026-01-01\n"], &[FIVE]),
    (&[b"ca: all\nid: a"], &[ID_A]),
    (&[b"ca: all\nid: a # b"], &[ID_A]),
    (&[b"ca: all\nid-hex: 61"], &[ID_A]),
    (&[b"ca: all\nid-hex:"], &[EMPTY_ID]),
    (&[b"ca: all\nid-hex: 6F0a"], &[ID_WITH_FEED]),
    // The blanks around a key ID are none of its bytes, and a comment may have any.
    (&[b"ca: all\nid:\ta\t\r\n"], &[ID_A]),
    (&[b"ca: all\nid: a #\x00\x1b\r."], &[ID_A]),
    // A key ID that begins as a key is given by its bytes.
    (&[b"ca: all\nid-hex: 7373682d7273612041"], &[ID_AS_KEY]),
    (&[b"ca: all\nid: ssh-rsa"], &[ID_OF_TYPE]),
    // Another line of a CA changes the CA, and adds none.
    (&[b"ca: ", OTHER_LINE, b" c\nca: all\nid: a"], &[ID_A]),
    (&[b"ca: ", OTHER_LINE, b"\nserial: 7"], &[SEVEN_OF_OTHER]),
    (
        &[
            b"ca-blob: AAAAC3NzaC1lZDI1NTE5AAAAIBERERERERERERERERERERERERERERERERERERERERER\n",
            b"serial: 7",
        ],
        &[SEVEN_OF_OTHER],
    ),
    (&[b"ca-blob: eA==\nid: a"], &[ID_OF_X]),
    // A key needs no CA, and a certificate is under its own.
    (&[b"key: ", GITHUB_LINE, b" # a"], &[KEY_SECTION]),
    (&[GITHUB_LINE], &[KEY_SECTION]),
    // A comment of a key may have a colon or a word.
    (&[GITHUB_LINE, b" ca: d:e"], &[KEY_SECTION]),
    (&[b" \t", GITHUB_LINE, b"\tserial 5 \r"], &[KEY_SECTION]),
    (&[b"ca: all\n", CERT_LINE], &[SEVEN_OF_OTHER]),
    (&[b"\t", CERT_LINE, b" ca: all"], &[SEVEN_OF_OTHER]),
    // Its serial number names it, and not the zero byte that is its key ID.
    (&[CERT_OF_ZERO], &[SEVEN_OF_OTHER]),
    (&[b"key-blob: AQ=="], &[KEY_OF_ONE]),
    (&[b"hash: ", GITHUB_PRINT], &[SHA256_SECTION]),
    (
        &[b"HASH: SHA1:AAAAAAAAAAAAAAAAAAAAAAAAAAA"],
        &[SHA1_SECTION],
    ),
];

const EMPTY_ID: &[u8] = b"\x01\0\0\0\x11\0\0\0\0\0\0\0\0\x23\0\0\0\x04\0\0\0\0";

const ID_WITH_FEED: &[u8] = b"\x01\0\0\0\x13\0\0\0\0\0\0\0\0\x23\0\0\0\x06\0\0\0\x02o\n";

const ID_AS_KEY: &[u8] = b"\x01\0\0\0\x1a\0\0\0\0\0\0\0\0\x23\0\0\0\x0d\0\0\0\x09ssh-rsa A";

const ID_OF_TYPE: &[u8] = b"\x01\0\0\0\x18\0\0\0\0\0\0\0\0\x23\0\0\0\x0b\0\0\0\x07ssh-rsa";

const ID_OF_X: &[u8] = b"\x01\0\0\0\x13\0\0\0\x01x\0\0\0\0\x23\0\0\0\x05\0\0\0\x01a";

const SEVEN_OF_OTHER: &[u8] = b"\x01\0\0\0\x48\0\0\0\x33\0\0\0\x0bssh-ed25519\0\0\0\x20\
\x11\x11\x11\x11\x11\x11\x11\x11\x11\x11\x11\x11\x11\x11\x11\x11\
\x11\x11\x11\x11\x11\x11\x11\x11\x11\x11\x11\x11\x11\x11\x11\x11\
\0\0\0\0\x20\0\0\0\x08\0\0\0\0\0\0\0\x07";

// A certificate whose key ID is a zero byte, with serial number 7 and with 0.
const CERT_OF_ZERO: &[u8] = b"ssh-ed25519-cert-v01@openssh.com \
AAAAIHNzaC1lZDI1NTE5LWNlcnQtdjAxQG9wZW5zc2guY29tAAAAAAAAACDjKqp5Fc65tEnRulDqKii7Gm4B\
+QvaJFotHYdpfRiiZQAAAAAAAAAHAAAAAQAAAAEAAAAAAAAAAAAAAAAA//////////8AAAAAAAAAAAAAAAAA\
AAAzAAAAC3NzaC1lZDI1NTE5AAAAIBERERERERERERERERERERERERERERERERERERERERERAAAAUwAAAAtz\
c2gtZWQyNTUxOQAAAEAAAAAAAAAAAAAAAAAAAAAAAAAAAAAAAAAAAAAAAAAAAAAAAAAAAAAAAAAAAAAAAAAA\
AAAAAAAAAAAAAAAAAAAA";

const CERT_BY_ZERO: &[u8] = b"ssh-ed25519-cert-v01@openssh.com \
AAAAIHNzaC1lZDI1NTE5LWNlcnQtdjAxQG9wZW5zc2guY29tAAAAAAAAACDjKqp5Fc65tEnRulDqKii7Gm4B\
+QvaJFotHYdpfRiiZQAAAAAAAAAAAAAAAQAAAAEAAAAAAAAAAAAAAAAA//////////8AAAAAAAAAAAAAAAAA\
AAAzAAAAC3NzaC1lZDI1NTE5AAAAIBERERERERERERERERERERERERERERERERERERERERERAAAAUwAAAAtz\
c2gtZWQyNTUxOQAAAEAAAAAAAAAAAAAAAAAAAAAAAAAAAAAAAAAAAAAAAAAAAAAAAAAAAAAAAAAAAAAAAAAA\
AAAAAAAAAAAAAAAAAAAA";

const KEY_OF_ONE: &[u8] = b"\x02\0\0\0\x05\0\0\0\x01\x01";

const SHA1_SECTION: &[u8] = b"\x03\0\0\0\x18\0\0\0\x14\0\0\0\0\0\0\0\0\0\0\0\0\0\0\0\0\0\0\0\0";

#[test]
fn what_texts_name(rt: HostRuntime) {
    for (i, (parts, sections)) in NAMED.iter().enumerate() {
        let text = joined(rt.alloc(), *parts).expect(&rt, "there is memory");
        let sections = joined(rt.alloc(), *sections).expect(&rt, "there is memory");
        let list = joined(rt.alloc(), &[&HEADER, &sections]).expect(&rt, "there is memory");
        assert!(rt; made(&rt, rt.alloc(), &text) == Ok(list), "in row {i}");
    }
}

// The parts of a text, its first line with a fault, and how that fault prints.
static REFUSED: [(&[&[u8]], u64, &str); 42] = [
    (&[b"serial: 5"], 1, "text 1 Spec, spec 4 NoAuthority"),
    (&[b"id: a"], 1, "text 1 Spec, spec 4 NoAuthority"),
    (&[b"\nid-hex: xx"], 2, "text 1 Spec, spec 4 NoAuthority"),
    (&[b"ca: all\nserial: x"], 2, "text 1 Spec, spec 1 Number"),
    (&[b"ca: all\nserial: 0"], 2, "text 1 Spec, spec 2 Zero"),
    (
        &[b"ca: all\nserial: 2-1"],
        2,
        "text 1 Spec, spec 3 Reversed",
    ),
    (&[b"ca: all\nid: # a"], 2, "text 1 Spec, spec 5 EmptyId"),
    (&[b"ca: all\n\nid: eve#1"], 3, "text 6 CutId"),
    (&[b"ca: all\nid:#1"], 2, "text 6 CutId"),
    // A control character is no part of a key ID, as is a line feed.
    (&[b"ca: all\nid: a\rid: b"], 2, "text 8 ControlInId"),
    (&[b"ca: all\nid: a\rb # c"], 2, "text 8 ControlInId"),
    (&[b"ca: all\nid:\ra"], 2, "text 8 ControlInId"),
    (&[b"ca: all\nid: a\tb"], 2, "text 8 ControlInId"),
    (&[b"ca: all\nid: \0"], 2, "text 8 ControlInId"),
    (&[b"ca: all\nid: a\x1fb"], 2, "text 8 ControlInId"),
    (&[b"ca: all\nid: a\x7f"], 2, "text 8 ControlInId"),
    (&[b"id: a\rb"], 1, "text 8 ControlInId"),
    (&[b"ca: all\nid-hex: 00"], 2, "text 9 ZeroInId"),
    (&[b"ca: all\nid-hex: 610062"], 2, "text 9 ZeroInId"),
    (&[b"\n ", CERT_BY_ZERO], 2, "text 9 ZeroInId"),
    (&[b"id-hex: 00"], 1, "text 1 Spec, spec 4 NoAuthority"),
    // A key is no key ID.
    (&[b"ca: all\nid: ", OTHER_LINE], 2, "text 10 KeyAsId"),
    (
        &[b"ca: all\nid: ", CERT_LINE, b" # a"],
        2,
        "text 10 KeyAsId",
    ),
    (&[b"ca: all\nid-hex: 6"], 2, "text 5 Hex"),
    (&[b"ca: all\nid-hex: 6g"], 2, "text 5 Hex"),
    (&[b"ca: all x"], 1, "text 1 Spec, spec 6 Key, line 1 NoKey"),
    (&[b"ca: ALL"], 1, "text 1 Spec, spec 6 Key, line 1 NoKey"),
    (&[b"ca:"], 1, "text 1 Spec, spec 6 Key, line 1 NoKey"),
    (&[b"ca: ", CERT_LINE], 1, "text 2 Certificate"),
    (&[b"ca-blob:"], 1, "text 3 NoBytes"),
    (&[b"ca-blob: eA"], 1, "text 4 Base64"),
    (&[b"key-blob: eB=="], 1, "text 4 Base64"),
    (
        &[b"hash: SHA1:AAAAAAAAAAAAAAAAAAAAAAAAAAAA"],
        1,
        "text 1 Spec, spec 7 Fingerprint, fingerprint 3 Length",
    ),
    (
        &[b"hash: SHA1:AAAAAAAAAAAAAAAAAAAAAAAAAAA="],
        1,
        "text 1 Spec, spec 7 Fingerprint, fingerprint 2 Base64",
    ),
    (
        &[b"hash: sha1:AAAAAAAAAAAAAAAAAAAAAAAAAAA"],
        1,
        "text 1 Spec, spec 7 Fingerprint, fingerprint 1 Prefix",
    ),
    (
        &[b"ssh-ed25519"],
        1,
        "text 1 Spec, spec 6 Key, line 1 NoKey",
    ),
    (
        &[b"ssh-ed25519 no-pty ", OTHER_LINE],
        1,
        "text 1 Spec, spec 6 Key, line 2 Base64",
    ),
    (&[b"serials: 5"], 1, "text 7 UnknownWord"),
    (&[b"serials 5"], 1, "text 7 UnknownWord"),
    (&[b"ca: all\n\nserial 5"], 3, "text 7 UnknownWord"),
    (&[b":"], 1, "text 7 UnknownWord"),
    (&[b"garbage"], 1, "text 7 UnknownWord"),
];

/// Whether a text has its first fault at this line, and the fault prints so.
pub fn has_fault(rt: &impl Abort, alloc: Global, parts: &[&[u8]], line: u64, cause: &str) -> bool {
    let text = joined(alloc, parts).expect(rt, "there is memory");
    match made(rt, alloc, &text) {
        Ok(_) => false,
        Err(fault) => {
            let said = fault.cause.to_string(alloc).expect(rt, "there is memory");
            fault.line == line && said.as_str() == cause
        }
    }
}

#[test]
fn first_faults(rt: HostRuntime) {
    for (i, (parts, line, cause)) in REFUSED.iter().enumerate() {
        assert!(rt;
            has_fault(&rt, rt.alloc(), *parts, *line, cause),
            "in row {i}"
        );
    }
}

// Words that other files of keys may have before a key, or that a misspelt line of a text has. If
// they were taken for options, the key of a CA would be revoked.
static BEFORE_A_KEY: [&[u8]; 22] = [
    b"ca ",
    b"ca : ",
    b"ca= ",
    b"ca=",
    b"ca; ",
    b"ca. ",
    b"CA ",
    b"cas: ",
    b"cas:cert-authority ",
    b"\"ca\" ",
    b"\"ca\": ",
    b"\xef\xbb\xbfca: ",
    b"\xef\xbb\xbf",
    b"serial ",
    b"user ",
    b": ",
    b"no-pty ",
    b"cert-authority ",
    b"restrict,command=\"a: b\" ",
    b"environment=\"A=b:c\" ",
    b"\"\" ",
    b"host.example ",
];

#[test]
fn nothing_before_a_key(rt: HostRuntime) {
    for (i, before) in BEFORE_A_KEY.iter().enumerate() {
        for key in [OTHER_LINE, CERT_LINE] {
            let parts: [&[u8]; 3] = [b"ca: all\n", before, key];
            assert!(rt;
                has_fault(&rt, rt.alloc(), &parts, 2, "text 7 UnknownWord"),
                "in row {i}"
            );
        }
    }
}

// The words whose value is a key line.
static OF_KEYS: [&[u8]; 4] = [b"ca: ", b"key: ", b"sha1: ", b"sha256: "];

#[test]
fn nothing_between_a_word_and_its_key(rt: HostRuntime) {
    let cause = "text 1 Spec, spec 6 Key, line 1 NoKey";
    for word in OF_KEYS {
        for (i, before) in BEFORE_A_KEY.iter().enumerate() {
            let parts: [&[u8]; 4] = [b"ca: all\n", word, before, OTHER_LINE];
            assert!(rt; has_fault(&rt, rt.alloc(), &parts, 2, cause), "in row {i}");
        }
    }
}

// Entries before a fault are held, and none after it.
#[test]
fn up_to_a_fault(rt: HostRuntime) {
    let mut held: Revocations<Held> = Revocations::new(rt.alloc());
    let text = b"ca: all\nserial: 5\nserial: 7-\nserial: 9";
    let mut standing = Standing::new(rt.alloc(), TODAY);
    let read = read_text(rt.alloc(), &mut held, &mut standing, text);
    assert!(rt; read.is_err() && held.authorities() == 1 && held.held() == 1);
}
