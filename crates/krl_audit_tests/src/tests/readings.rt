//! Lines that ssh and sshd read in two ways: host names end at the first blank, and options at the
//! first blank outside double quotes.

use crate::tests::keys::{ALICE, ALICE_PRINT, AUTHORITY, AUTHORITY_PRINT};
use crate::tests::made::{ALL, alice_and_bob, said_of};
use audit_lines::reads_every;

// The name of a file, whether Alice's key is found in a line that has it between quotes, and
// whether the key of the authority is found, which is behind them.
const NAMES: [(&str, bool, bool); 13] = [
    ("known_hosts", true, false),
    ("home/.ssh/known_hosts2", true, false),
    ("etc/ssh/ssh_known_hosts2", true, false),
    ("known_hosts.old", true, false),
    ("authorized_keys", false, true),
    ("home/.ssh/authorized_keys2", false, true),
    ("etc/ssh/authorized_keys.d/alice", false, true),
    ("authorized_keys.d//alice", false, true),
    ("authorized_keys.d/known_hosts", true, true),
    ("authorized_keys.d", true, true),
    ("authorized_keys.old", true, true),
    ("keys", true, true),
    ("-", true, true),
];

#[test]
fn each_name_has_its_reading(rt: HostRuntime) {
    let list = alice_and_bob(&rt, rt.alloc());
    let line = format!(in rt.alloc(); "host,\"x {ALICE} \"x {AUTHORITY} a\n");
    let line = line.expect(&rt, "there is memory");
    for (name, is_alice, is_authority) in NAMES {
        let found = said_of(&rt, rt.alloc(), &list, ALL, &[(name, Ok(line.as_bytes()))]);
        let mut wanted = String::new(rt.alloc());
        if is_authority {
            let said = format!(in rt.alloc(); "{name}:1: ok: ssh-ed25519 {AUTHORITY_PRINT}: a\n");
            let said = said.expect(&rt, "there is memory");
            wanted
                .push_str(said.as_str())
                .expect(&rt, "there is memory");
        }
        if is_alice {
            let said = format!(in rt.alloc();
                "{name}:1: revoked: ssh-ed25519 {ALICE_PRINT} by its key: \"x {AUTHORITY} a\n"
            );
            let said = said.expect(&rt, "there is memory");
            wanted
                .push_str(said.as_str())
                .expect(&rt, "there is memory");
        }
        assert_eq!(rt; found.text.as_slice(), wanted.as_bytes(), "{name}");
        assert!(rt; found.counts.keys == u64::from(is_alice) + u64::from(is_authority));
        assert!(rt; found.counts.unread == 0);
    }
}

#[test]
fn each_file_of_some_directories_is_read(rt: HostRuntime) {
    for (path, every) in [
        ("authorized_keys.d", true),
        ("etc/authorized_keys.d/", true),
        ("/authorized_keys.d", true),
        ("authorized_keys.d//", true),
        ("my_authorized_keys.d", false),
        ("authorized_keys.d/bob", false),
        ("/", false),
        ("", false),
    ] {
        assert!(rt; reads_every(path.as_bytes()) == every, "{path}");
    }
}

// The text before Alice's key and after it, the name of the file, and the word that is printed. A
// byte order mark at the start of a file belongs to the first word.
const LINES: [(&str, &str, &str, &str); 13] = [
    ("@cert-authority \"x ", " y", "authorized_keys", "revoked"),
    ("@cert-authority \"x ", " y", "keys", "revoked"),
    ("command=\"a b\" ", " y", "keys", "revoked"),
    ("command=\"a b\" ", " y", "known_hosts", "unread"),
    ("host\" ", " y", "known_hosts", "revoked"),
    ("host\" ", " y", "keys", "revoked"),
    ("host\" ", " y", "authorized_keys", "unread"),
    ("\u{feff}", " y", "known_hosts", "unread"),
    ("\u{feff}", " y", "authorized_keys", "unread"),
    ("\u{feff}", " y", "keys", "unread"),
    ("\u{feff}#,* ", " y", "known_hosts", "revoked"),
    ("\u{feff}#,* ", " y", "authorized_keys", "revoked"),
    ("\u{feff}#,* ", " y", "keys", "revoked"),
];

#[test]
fn a_line_has_one_finding_where_one_reading_has_a_key(rt: HostRuntime) {
    let list = alice_and_bob(&rt, rt.alloc());
    for (i, (before, after, name, status)) in LINES.iter().enumerate() {
        let line = format!(in rt.alloc(); "{before}{ALICE}{after}\n");
        let line = line.expect(&rt, "there is memory");
        let found = said_of(&rt, rt.alloc(), &list, ALL, &[(*name, Ok(line.as_bytes()))]);
        let wanted = if *status == "revoked" {
            format!(in rt.alloc(); "{name}:1: revoked: ssh-ed25519 {ALICE_PRINT} by its key: y\n")
        } else {
            format!(in rt.alloc(); "{name}:1: unread: no key type stands there\n")
        };
        let wanted = wanted.expect(&rt, "there is memory");
        assert_eq!(rt; found.text.as_slice(), wanted.as_bytes(), "line {i}");
    }
}

// A part that is no key, and one that is: neither is passed over.
#[test]
fn a_reading_with_a_fault_is_unread(rt: HostRuntime) {
    let list = alice_and_bob(&rt, rt.alloc());
    let line = format!(in rt.alloc(); "host,\"x ssh-ed25519 !!! \"x {AUTHORITY} a\n");
    let line = line.expect(&rt, "there is memory");
    let found = said_of(
        &rt,
        rt.alloc(),
        &list,
        ALL,
        &[("keys", Ok(line.as_bytes()))],
    );
    let wanted = format!(in rt.alloc();
        "keys:1: ok: ssh-ed25519 {AUTHORITY_PRINT}: a
keys:1: unread: the key is not whole base64\n"
    );
    let wanted = wanted.expect(&rt, "there is memory");
    assert_eq!(rt; found.text.as_slice(), wanted.as_bytes());
    assert!(rt; found.status == 3);
}
