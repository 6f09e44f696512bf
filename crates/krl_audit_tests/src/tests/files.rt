//! Whole files: line numbers, files without a key, private key files, and files that cannot be
//! read.

use crate::tests::keys::{ALICE, ALICE_PRINT, AUTHORITY, AUTHORITY_PRINT, BOB, BOB_PRINT};
use crate::tests::made::{ALL, FINDINGS, alice_and_bob, blob_of, nothing, said_by, said_of};
use audit_lines::Refusal;
use krl_audit::Judge;
use test_fixtures::{CONTAINER, GITHUB, GITHUB_PRINT, joined, repeated};

#[test]
fn an_audit_goes_on_past_what_it_cannot_read(rt: HostRuntime) {
    let list = alice_and_bob(&rt, rt.alloc());
    let text = format!(in rt.alloc();
        "# keys\n\n{ALICE} alice@laptop\r\nnot a key\n{BOB} bob@desk\n"
    );
    let text = text.expect(&rt, "there is memory");
    let files = [
        ("gone", Err(Refusal::Missing)),
        ("home/\x1bbob", Ok(text.as_bytes())),
        ("pipe", Err(Refusal::Irregular)),
    ];
    let found = said_of(&rt, rt.alloc(), &list, FINDINGS, &files);
    let wanted = format!(in rt.alloc();
        "gone: unread: No such file or directory
home/\\x1bbob:3: revoked: ssh-ed25519 {ALICE_PRINT} by its key: alice@laptop
home/\\x1bbob:4: unread: no key type stands there
home/\\x1bbob:5: revoked: ssh-ed25519-cert-v01@openssh.com {BOB_PRINT} \
by key ID \"bob\" of CA {AUTHORITY_PRINT}: bob@desk
pipe: unread: no regular file\n"
    );
    let wanted = wanted.expect(&rt, "there is memory");
    assert_eq!(rt; found.text.as_slice(), wanted.as_bytes());
    let counts = found.counts;
    assert!(rt; counts.keys == 2 && counts.revoked == 2 && counts.unread == 3);
    assert!(rt; found.status == 1);
}

#[test]
fn a_canary_is_no_finding_and_a_certificate_by_it_is_one(rt: HostRuntime) {
    let mut list = nothing(rt.alloc());
    for line in [ALICE, AUTHORITY] {
        let blob = blob_of(&rt, rt.alloc(), line);
        list.add_key(blob.as_slice()).expect(&rt, "there is memory");
    }
    let judge = Judge {
        list: &list,
        canaries: Some(&list),
        texts: None,
        shown: FINDINGS,
    };
    let text = format!(in rt.alloc(); "{ALICE}\n{AUTHORITY}\n{BOB}\n");
    let text = text.expect(&rt, "there is memory");
    let found = said_by(&rt, rt.alloc(), judge, &[("f", Ok(text.as_bytes()))]);
    let wanted = format!(in rt.alloc();
        "f:3: revoked: ssh-ed25519-cert-v01@openssh.com {BOB_PRINT} by the key of its CA\n"
    );
    let wanted = wanted.expect(&rt, "there is memory");
    assert_eq!(rt; found.text.as_slice(), wanted.as_bytes());
    assert!(rt; found.counts.keys == 3 && found.counts.revoked == 1 && found.status == 1);
}

// Files without a key, and what is printed for them.
const KEYLESS: [(&str, &str); 5] = [
    ("", ""),
    ("# nothing\n\n", ""),
    ("a\n", "f:1: unread: no key type stands there\n"),
    ("a\nb\n", "f: unread: none of its 2 lines is a key\n"),
    ("#\na\n\nb\nc", "f: unread: none of its 3 lines is a key\n"),
];

#[test]
fn a_file_without_a_key_is_named_once(rt: HostRuntime) {
    let list = nothing(rt.alloc());
    for (i, (text, wanted)) in KEYLESS.iter().enumerate() {
        let files = [("f", Ok(text.as_bytes()))];
        let found = said_of(&rt, rt.alloc(), &list, FINDINGS, &files);
        assert_eq!(rt; found.text.as_slice(), wanted.as_bytes(), "file {i}");
        let status = if wanted.is_empty() { 0 } else { 3 };
        assert_eq!(rt; found.status, status, "file {i}");
    }
}

#[test]
fn of_a_private_key_file_the_public_half_is_asked_about(rt: HostRuntime) {
    let mut list = nothing(rt.alloc());
    list.add_key(GITHUB).expect(&rt, "there is memory");
    let files = [("id", Ok(CONTAINER)), ("cut", Ok(&CONTAINER[..60]))];
    let found = said_of(&rt, rt.alloc(), &list, FINDINGS, &files);
    let wanted = joined(
        rt.alloc(),
        &[
            b"id:1: revoked: ssh-ed25519 ",
            GITHUB_PRINT,
            b" by its key: a\n\
cut:1: unread: the private key file is cut or misspelt: private 1 Armour\n",
        ],
    );
    let wanted = wanted.expect(&rt, "there is memory");
    assert_eq!(rt; found.text.as_slice(), wanted.as_slice());
}

// Key lines behind a private key, and in the place of it.
#[test]
fn lines_behind_a_private_key_are_read(rt: HostRuntime) {
    let list = alice_and_bob(&rt, rt.alloc());
    let behind = joined(
        rt.alloc(),
        &[CONTAINER, b"\n", ALICE.as_bytes(), b" a\n\nx\n"],
    );
    let behind = behind.expect(&rt, "there is memory");
    let lines = CONTAINER.iter().filter(|byte| **byte == b'\n').count();
    let found = said_of(
        &rt,
        rt.alloc(),
        &list,
        FINDINGS,
        &[("id", Ok(behind.as_slice()))],
    );
    let revoked = lines + 2;
    let unread = lines + 4;
    let wanted = format!(in rt.alloc();
        "id:{revoked}: revoked: ssh-ed25519 {ALICE_PRINT} by its key: a
id:{unread}: unread: no key type stands there\n"
    );
    let wanted = wanted.expect(&rt, "there is memory");
    assert_eq!(rt; found.text.as_slice(), wanted.as_bytes());
    assert!(rt; found.counts.keys == 2 && found.counts.unread == 1);
    let name = "home/.ssh/authorized_keys";
    let found = said_of(
        &rt,
        rt.alloc(),
        &list,
        FINDINGS,
        &[(name, Ok(behind.as_slice()))],
    );
    let armour = lines as u64;
    assert!(rt; found.counts.keys == 2 && found.counts.unread == armour + 1);
}

// The first 20 lines that are not read are named, and then how many more there are.
#[test]
fn lines_that_are_not_read_are_counted(rt: HostRuntime) {
    let list = nothing(rt.alloc());
    for (count, last) in [
        (20, "f:21: unread: no key type stands there\n"),
        (21, "f: unread: and 1 more line is unread\n"),
        (1_020, "f: unread: and 1000 more lines are unread\n"),
    ] {
        let rest = repeated(rt.alloc(), b"x\n", count).expect(&rt, "there is memory");
        let text = joined(rt.alloc(), &[ALICE.as_bytes(), b"\n", &rest]);
        let text = text.expect(&rt, "there is memory");
        let found = said_of(
            &rt,
            rt.alloc(),
            &list,
            FINDINGS,
            &[("f", Ok(text.as_slice()))],
        );
        assert!(rt; found.text.ends_with(last.as_bytes()));
        assert!(rt; found.counts.unread == count as u64 && found.counts.keys == 1);
        let lines = found.text.iter().filter(|byte| **byte == b'\n').count();
        assert!(rt; lines == if count > 20 { 21 } else { count });
    }
}

// More lines than any page of memory has.
#[test]
fn many_lines(rt: HostRuntime) {
    let list = nothing(rt.alloc());
    let line = joined(rt.alloc(), &[ALICE.as_bytes(), b"\nx\n"]).expect(&rt, "there is memory");
    let text = repeated(rt.alloc(), &line, 1_500).expect(&rt, "there is memory");
    let found = said_of(
        &rt,
        rt.alloc(),
        &list,
        FINDINGS,
        &[("f", Ok(text.as_slice()))],
    );
    assert!(rt; found.counts.keys == 1_500 && found.counts.unread == 1_500);
    assert!(rt;
        found.text.ends_with(
            b"f:40: unread: no key type stands there\nf: unread: and 1480 more lines are unread\n"
        )
    );
}

// The same for each kind of lines.
#[test]
fn lines_of_each_kind_are_counted(rt: HostRuntime) {
    let list = alice_and_bob(&rt, rt.alloc());
    let revoked = joined(rt.alloc(), &[ALICE.as_bytes(), b"\n"]).expect(&rt, "there is memory");
    let fine = joined(rt.alloc(), &[AUTHORITY.as_bytes(), b"\n"]).expect(&rt, "there is memory");
    let revoked = repeated(rt.alloc(), &revoked, 22).expect(&rt, "there is memory");
    let fine = repeated(rt.alloc(), &fine, 21).expect(&rt, "there is memory");
    let unread = repeated(rt.alloc(), b"x\n", 19).expect(&rt, "there is memory");
    let text = joined(rt.alloc(), &[&revoked, &fine, &unread, b"x"]);
    let text = text.expect(&rt, "there is memory");
    let found = said_of(&rt, rt.alloc(), &list, ALL, &[("f", Ok(text.as_slice()))]);
    let last = b"f:63: unread: no key type stands there
f: revoked: and 2 more lines are revoked
f: ok: and 1 more line is ok\n";
    assert!(rt; found.text.ends_with(last.as_slice()));
    let counts = found.counts;
    assert!(rt; counts.keys == 43 && counts.revoked == 22 && counts.unread == 20);
    let lines = found.text.iter().filter(|byte| **byte == b'\n').count();
    assert!(rt; lines == 62);
}
