//! Keys anywhere in the lines of a file, and labels.

use crate::tests::keys::{ALICE, ALICE_PRINT, BOB, BOB_PRINT};
use crate::tests::made::{ALL, FINDINGS, OBJECTS, alice_and_bob, said_of, scanned};
use audit_lines::Refusal;
use audit_text::Format;
use krl_audit::Shown;

// The label of a host.
const LABELLED: Shown<'static> = Shown {
    label: Some("web01:"),
    revoked: true,
    unread: true,
    fine: true,
    format: Format::Text,
};

#[test]
fn both_keys_of_a_line_are_found_in_their_columns(rt: HostRuntime) {
    let list = alice_and_bob(&rt, rt.alloc());
    let text = format!(in rt.alloc(); "keys:\n- [\"{ALICE} a\", \"{BOB} b\"]\n");
    let text = text.expect(&rt, "there is memory");
    let found = scanned(&rt, rt.alloc(), &list, ALL, text.as_bytes());
    let second = ALICE.len() + 11;
    let wanted = format!(in rt.alloc();
        "f:2:5: revoked: ssh-ed25519 {ALICE_PRINT} by its key
f:2:{second}: revoked: ssh-ed25519-cert-v01@openssh.com {BOB_PRINT} by key ID \"bob\" of CA "
    );
    let wanted = wanted.expect(&rt, "there is memory");
    assert!(rt; found.text.starts_with(wanted.as_bytes()));
    assert!(rt; found.counts.keys == 2 && found.counts.revoked == 2 && found.counts.unread == 0);
    assert!(rt; found.status == 1);
}

#[test]
fn a_text_without_keys_has_no_finding(rt: HostRuntime) {
    let list = alice_and_bob(&rt, rt.alloc());
    for text in [
        "",
        "\n",
        "not a key\nnor this\n",
        "ssh-ed25519 key of alice",
        "xssh-ed25519 AAAA",
    ] {
        let found = scanned(&rt, rt.alloc(), &list, ALL, text.as_bytes());
        assert!(rt; found.text.is_empty() && found.status == 0);
    }
    let longer = format!(in rt.alloc(); "x{ALICE}\n@{ALICE}");
    let longer = longer.expect(&rt, "there is memory");
    let found = scanned(&rt, rt.alloc(), &list, ALL, longer.as_bytes());
    assert!(rt; found.text.is_empty() && found.status == 0);
}

#[test]
fn a_cut_key_is_told_with_its_column(rt: HostRuntime) {
    let list = alice_and_bob(&rt, rt.alloc());
    let cut = &ALICE[..ALICE.len() - 1];
    let text = format!(in rt.alloc(); "a\r\nkey={cut}");
    let text = text.expect(&rt, "there is memory");
    let found = scanned(&rt, rt.alloc(), &list, FINDINGS, text.as_bytes());
    assert!(rt; found.text.starts_with(b"f:2:5: unread: "));
    assert!(rt; found.counts.keys == 0 && found.counts.unread == 1 && found.status == 3);
}

#[test]
fn objects_have_columns(rt: HostRuntime) {
    let list = alice_and_bob(&rt, rt.alloc());
    let text = format!(in rt.alloc(); "=={ALICE}");
    let text = text.expect(&rt, "there is memory");
    let found = scanned(&rt, rt.alloc(), &list, OBJECTS, text.as_bytes());
    assert!(rt;
        found.text.starts_with(b"{\"file\":\"f\",\"line\":1,\"column\":3,\"status\":\"revoked\",")
    );
}

#[test]
fn a_label_stands_before_each_name(rt: HostRuntime) {
    let list = alice_and_bob(&rt, rt.alloc());
    let files = [("gone", Err(Refusal::Missing)), ("-", Ok(ALICE.as_bytes()))];
    let found = said_of(&rt, rt.alloc(), &list, LABELLED, &files);
    let wanted = format!(in rt.alloc();
        "web01:gone: unread: No such file or directory
web01:-:1: revoked: ssh-ed25519 {ALICE_PRINT} by its key\n"
    );
    let wanted = wanted.expect(&rt, "there is memory");
    assert_eq!(rt; found.text.as_slice(), wanted.as_bytes());
    let mut shown = OBJECTS;
    shown.label = Some("a\x1b\"b ");
    let found = said_of(&rt, rt.alloc(), &list, shown, &files);
    assert!(rt;
        found.text.starts_with(
            b"{\"label\":\"a\\u001b\\\"b \",\"file\":\"gone\",\"status\":\"unread\","
        )
    );
    let mut shown = FINDINGS;
    shown.label = Some("a\x1b");
    let found = said_of(&rt, rt.alloc(), &list, shown, &files);
    assert!(rt; found.text.starts_with(b"a\\x1bgone: unread: "));
}
