//! The outcome of each line, as people read it.

use crate::tests::keys::{ALICE, ALICE_PRINT, AUTHORITY, AUTHORITY_PRINT, BOB, BOB_PRINT};
use crate::tests::made::{ALL, FINDINGS, NOTHING, alice_and_bob, all_of_bob, nothing, said_of};
use line_pieces::visible_name;
use std::alloc::Global;
use std::process::Abort;
use test_fixtures::joined;

// The line of a key, with what is before and after it.
fn line_of(rt: &impl Abort, alloc: Global, before: &str, key: &str, after: &str) -> String {
    format!(in alloc; "{before}{key}{after}").expect(rt, "there is memory")
}

// The text before a key, the text after it, and what is printed for Alice's key after its place.
const LINES: [(&str, &str, &str); 17] = [
    ("", "", ""),
    ("", " alice@laptop", ": alice@laptop"),
    ("", " a b\r", ": a b"),
    (" \t", "\ta\t \r", ": a"),
    ("command=\"a b\",no-pty ", " a", ": a"),
    ("cert-authority,principals=\"x y\" ", " a", ": a"),
    ("host,10.0.0.1 ", "", ""),
    ("[host]:2222 ", " a", ": a"),
    ("|1|c2FsdA==|aGFzaA== ", " a", ": a"),
    ("@cert-authority *.example.net ", " a", ": a"),
    ("", " \u{1b}[31mred\u{7}", ": \\x1b[31mred\\x07"),
    ("", " caf\u{e9}", ": caf\u{e9}"),
    ("", " \u{9b}31m\u{2027}", ": \\x9b31m\u{2027}"),
    (
        "",
        " \u{61c}\u{200e}\u{200f}\u{200d}",
        ": \\xd8\\x9c\\xe2\\x80\\x8e\\xe2\\x80\\x8f\u{200d}",
    ),
    (
        "",
        " \u{2028}\u{202e}\u{202f}",
        ": \\xe2\\x80\\xa8\\xe2\\x80\\xae\u{202f}",
    ),
    (
        "",
        " \u{2065}\u{2066}\u{2069}\u{206a}",
        ": \u{2065}\\xe2\\x81\\xa6\\xe2\\x81\\xa9\u{206a}",
    ),
    ("", " \u{7f}\u{80}\u{a0}\"\\", ": \\x7f\\x80\u{a0}\"\\"),
];

#[test]
fn a_revoked_key_is_found_on_each_kind_of_line(rt: HostRuntime) {
    let list = alice_and_bob(&rt, rt.alloc());
    for (i, (before, after, said)) in LINES.iter().enumerate() {
        let line = line_of(&rt, rt.alloc(), *before, ALICE, *after);
        let found = said_of(
            &rt,
            rt.alloc(),
            &list,
            FINDINGS,
            &[("f", Ok(line.as_bytes()))],
        );
        let wanted = format!(in rt.alloc();
            "f:1: revoked: ssh-ed25519 {ALICE_PRINT} by its key{said}\n"
        );
        let wanted = wanted.expect(&rt, "there is memory");
        assert_eq!(rt; found.text.as_slice(), wanted.as_bytes(), "line {i}");
        assert_eq!(rt; found.status, 1, "line {i}");
    }
}

#[test]
fn a_comment_that_is_not_utf8_is_shown_by_numbers(rt: HostRuntime) {
    let list = alice_and_bob(&rt, rt.alloc());
    let line = joined(rt.alloc(), &[ALICE.as_bytes(), b" a\x9b31m\xe9\x7f"]);
    let line = line.expect(&rt, "there is memory");
    let files = [("f", Ok(line.as_slice()))];
    let found = said_of(&rt, rt.alloc(), &list, FINDINGS, &files);
    let wanted = format!(in rt.alloc();
        "f:1: revoked: ssh-ed25519 {ALICE_PRINT} by its key: a\\x9b31m\\xe9\\x7f\n"
    );
    let wanted = wanted.expect(&rt, "there is memory");
    assert_eq!(rt; found.text.as_slice(), wanted.as_bytes());
}

#[test]
fn a_name_that_is_not_utf8_is_shown_by_numbers(rt: HostRuntime) {
    let name = visible_name(rt.alloc(), b"caf\xe9 \"\\\x1b\n").expect(&rt, "there is memory");
    assert!(rt; name.as_str() == "caf\\xe9 \"\\\\x1b\\x0a");
}

// Lines for which nothing is printed, whatever their keys: blank lines, comments, and keys that are
// distrusted already.
const SILENT: [&str; 6] = ["", " \t\r", "# ", "#", " \t#", "@revoked * "];

#[test]
fn nothing_is_said_of_other_lines(rt: HostRuntime) {
    let list = alice_and_bob(&rt, rt.alloc());
    for (i, before) in SILENT.iter().enumerate() {
        let key = if i < 2 { "" } else { ALICE };
        let line = line_of(&rt, rt.alloc(), *before, key, " a");
        let line = if i < 2 { *before } else { line.as_str() };
        let found = said_of(&rt, rt.alloc(), &list, ALL, &[("f", Ok(line.as_bytes()))]);
        assert!(rt; found.text.is_empty() && found.status == 0, "line {i}");
    }
}

// Lines that cannot be read, and why.
const UNREAD: [(&str, &str); 8] = [
    ("garbage", "no key type stands there"),
    ("host 1024 35 12345", "no key type stands there"),
    (
        "ssh-ed448 AAAACXNzaC1lZDQ0OA== a",
        "no key type stands there",
    ),
    ("ssh-ed25519", "no key type stands there"),
    (
        "ssh-ed25519 AAAAC3NzaC1lZDI1NTE5AAAA= a",
        "the key is not whole base64",
    ),
    (
        "ssh-rsa AAAAC3NzaC1lZDI1NTE5 a",
        "the key is of another type",
    ),
    (
        "ssh-ed25519 AAAAC3NzaC1lZDI1NTE5 a",
        "the key is cut or misspelt: subject 1 Key, key 1 Wire, wire 1 Short",
    ),
    ("@revoked garbage", "no key type stands there"),
];

#[test]
fn a_line_that_is_not_read_is_named_with_its_reason(rt: HostRuntime) {
    let list = nothing(rt.alloc());
    for (i, (line, why)) in UNREAD.iter().enumerate() {
        let files = [("f", Ok(line.as_bytes()))];
        let found = said_of(&rt, rt.alloc(), &list, FINDINGS, &files);
        let wanted = format!(in rt.alloc(); "f:1: unread: {why}\n").expect(&rt, "there is memory");
        assert_eq!(rt; found.text.as_slice(), wanted.as_bytes(), "line {i}");
        assert_eq!(rt; found.status, 3, "line {i}");
    }
}

#[test]
fn all_reasons_are_named_in_their_order(rt: HostRuntime) {
    let list = all_of_bob(&rt, rt.alloc());
    let files = [("f", Ok(BOB.as_bytes()))];
    let found = said_of(&rt, rt.alloc(), &list, FINDINGS, &files);
    let of_authority = AUTHORITY_PRINT;
    let wanted = format!(in rt.alloc();
        "f:1: revoked: ssh-ed25519-cert-v01@openssh.com {BOB_PRINT} by the key of its CA, \
by the SHA-1 of its CA, by the SHA-256 of its CA, by serial 8 of CA {of_authority}, \
by serial 8 of all CAs, by key ID \"bob\" of CA {of_authority}, by key ID \"bob\" of all CAs\n"
    );
    let wanted = wanted.expect(&rt, "there is memory");
    assert_eq!(rt; found.text.as_slice(), wanted.as_bytes());
}

#[test]
fn keys_that_are_fine_are_named_where_all_are(rt: HostRuntime) {
    let list = alice_and_bob(&rt, rt.alloc());
    let files = [("f", Ok(AUTHORITY.as_bytes()))];
    let wanted = format!(in rt.alloc(); "f:1: ok: ssh-ed25519 {AUTHORITY_PRINT}\n");
    let wanted = wanted.expect(&rt, "there is memory");
    let found = said_of(&rt, rt.alloc(), &list, ALL, &files);
    assert_eq!(rt; found.text.as_slice(), wanted.as_bytes());
    let found = said_of(&rt, rt.alloc(), &list, FINDINGS, &files);
    assert!(rt; found.text.is_empty() && found.status == 0);
    let files = [("f", Ok(ALICE.as_bytes()))];
    let found = said_of(&rt, rt.alloc(), &list, NOTHING, &files);
    assert!(rt; found.text.is_empty() && found.status == 1);
}
