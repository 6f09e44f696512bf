//! Findings as JSON objects.

use crate::tests::keys::{ALICE, ALICE_PRINT, AUTHORITY_PRINT, BOB, BOB_PRINT};
use crate::tests::made::{Listed, OBJECTS, alice_and_bob, all_of_bob, blob_of, nothing, said_of};
use audit_lines::Refusal;
use byte_streams::{Sink, ToWrite};
use key_text::{sha1_of, sha256_of};
use krl_audit::{Auditor, Counts, FileCounts, Judge, ListFacts};
use krl_format::Stated;
use run_output::{Printer, Run};
use std::alloc::Global;
use std::process::Abort;
use test_fixtures::{Taker, joined};

// The objects about one file.
fn objects_of(
    rt: &impl Abort,
    alloc: Global,
    list: &Listed,
    name: &str,
    content: Result<&[u8], Refusal>,
) -> Vec<u8> {
    said_of(rt, alloc, list, OBJECTS, &[(name, content)]).text
}

#[test]
fn the_objects_of_a_file(rt: HostRuntime) {
    let list = alice_and_bob(&rt, rt.alloc());
    let text = format!(in rt.alloc();
        "# keys\n\n{ALICE} alice@laptop\r\nnot a key\n{BOB} bob@desk\n"
    );
    let text = text.expect(&rt, "there is memory");
    let content = Ok(text.as_bytes());
    let found = objects_of(&rt, rt.alloc(), &list, "home/\x1bbob", content);
    let wanted = format!(in rt.alloc();
        "{{\"file\":\"home/\\u001bbob\",\"line\":3,\"status\":\"revoked\",\"type\":\"ssh-ed25519\",\
\"fingerprint\":\"{ALICE_PRINT}\",\"comment\":\"alice@laptop\",\"reasons\":[{{\"by\":\"key\"}}]}}
{{\"file\":\"home/\\u001bbob\",\"line\":4,\"status\":\"unread\",\"fault\":\"line 1 NoKey\",\
\"why\":\"no key type stands there\"}}
{{\"file\":\"home/\\u001bbob\",\"line\":5,\"status\":\"revoked\",\
\"type\":\"ssh-ed25519-cert-v01@openssh.com\",\"fingerprint\":\"{BOB_PRINT}\",\
\"comment\":\"bob@desk\",\"certificate\":{{\"serial\":\"8\",\"id\":\"bob\",\
\"authority\":\"{AUTHORITY_PRINT}\"}},\
\"reasons\":[{{\"by\":\"id\",\"id\":\"bob\",\"authority\":\"{AUTHORITY_PRINT}\"}}]}}\n"
    );
    let wanted = wanted.expect(&rt, "there is memory");
    assert_eq!(rt; found.as_slice(), wanted.as_bytes());
}

// The name of a file, what is before Alice's key and after it, and the fields of that.
const LINES: [(&str, &[u8], &[u8], &[u8]); 15] = [
    ("f", b"", b"", b"\"comment\":\"\""),
    ("f", b"", b" a\"b\\c", b"\"comment\":\"a\\\"b\\\\c\""),
    ("f", b"", b" a\rb\tc\r", b"\"comment\":\"a\\rb\\tc\""),
    (
        "f",
        b"",
        b" \x1b[31mred\x07",
        b"\"comment\":\"\\u001b[31mred\\u0007\"",
    ),
    ("f", b"", b" caf\xc3\xa9", b"\"comment\":\"caf\xc3\xa9\""),
    ("f", b"", b" caf\xe9", b"\"comment_base64\":\"Y2Fm6Q==\""),
    ("f", b"", b" \x9b31m", b"\"comment_base64\":\"mzMxbQ==\""),
    (
        "f",
        b" command=\"a b\",no-pty \t",
        b" a",
        b"\"comment\":\"a\",\"options\":\"command=\\\"a b\\\",no-pty\"",
    ),
    (
        "f",
        b"environment=\"A=\xff\" ",
        b"",
        b"\"comment\":\"\",\"options_base64\":\"ZW52aXJvbm1lbnQ9IkE9/yI=\"",
    ),
    (
        "f",
        b"@cert-authority *.example.net ",
        b" a",
        b"\"comment\":\"a\",\"marker\":\"@cert-authority\",\"hosts\":\"*.example.net\"",
    ),
    (
        "etc/ssh_known_hosts",
        b"[host]:2222,10.0.0.1 ",
        b" a",
        b"\"comment\":\"a\",\"hosts\":\"[host]:2222,10.0.0.1\"",
    ),
    (
        "known_hosts.old",
        b"|1|c2FsdA==|aGFzaA== ",
        b"",
        b"\"comment\":\"\",\"hosts\":\"|1|c2FsdA==|aGFzaA==\"",
    ),
    ("known_hosts2", b"", b"", b"\"comment\":\"\""),
    (
        "etc/ssh_known_hosts2",
        b"host ",
        b" a",
        b"\"comment\":\"a\",\"hosts\":\"host\"",
    ),
    (
        "authorized_keys",
        b"command=\"a\"\r ",
        b" a",
        b"\"comment\":\"a\",\"options\":\"command=\\\"a\\\"\\r\"",
    ),
];

#[test]
fn each_kind_of_line_has_its_fields(rt: HostRuntime) {
    let list = alice_and_bob(&rt, rt.alloc());
    for (i, (name, before, after, fields)) in LINES.iter().enumerate() {
        let line = joined(rt.alloc(), &[*before, ALICE.as_bytes(), *after]);
        let line = line.expect(&rt, "there is memory");
        let found = objects_of(&rt, rt.alloc(), &list, *name, Ok(line.as_slice()));
        let wanted = joined(
            rt.alloc(),
            &[
                b"{\"file\":\"",
                name.as_bytes(),
                b"\",\"line\":1,\"status\":\"revoked\",\"type\":\"ssh-ed25519\",\"fingerprint\":\"",
                ALICE_PRINT.as_bytes(),
                b"\",",
                *fields,
                b",\"reasons\":[{\"by\":\"key\"}]}\n",
            ],
        );
        let wanted = wanted.expect(&rt, "there is memory");
        assert_eq!(rt; found.as_slice(), wanted.as_slice(), "line {i}");
    }
}

// DEL, the ends of U+0080 to U+009F, and of the bidirectional controls and line separators, which a
// terminal may obey, and the characters beside them.
#[test]
fn control_characters_are_escaped(rt: HostRuntime) {
    let list = alice_and_bob(&rt, rt.alloc());
    let marks = "\u{61b}\u{61c}\u{61d}\u{200d}\u{200e}\u{200f}\u{2010}\u{2027}";
    let others = "\u{2028}\u{202e}\u{202f}\u{2065}\u{2066}\u{2069}\u{206a}\u{2580}";
    let text = format!(in rt.alloc(); "{ALICE} ~\x7f\u{80}\u{9f}\u{a0}\u{c2}{marks}{others}");
    let text = text.expect(&rt, "there is memory");
    let content = Ok(text.as_bytes());
    let found = objects_of(&rt, rt.alloc(), &list, "a\x7f\u{9b}\u{a0}", content);
    let wanted = format!(in rt.alloc();
        "{{\"file\":\"a\\u007f\\u009b\u{a0}\",\"line\":1,\"status\":\"revoked\",\
\"type\":\"ssh-ed25519\",\"fingerprint\":\"{ALICE_PRINT}\",\
\"comment\":\"~\\u007f\\u0080\\u009f\u{a0}\u{c2}\u{61b}\\u061c\u{61d}\u{200d}\\u200e\\u200f\u{2010}\
\u{2027}\\u2028\\u202e\u{202f}\u{2065}\\u2066\\u2069\u{206a}\u{2580}\",\
\"reasons\":[{{\"by\":\"key\"}}]}}\n"
    );
    let wanted = wanted.expect(&rt, "there is memory");
    assert_eq!(rt; found.as_slice(), wanted.as_bytes());
}

#[test]
fn all_reasons_have_their_objects(rt: HostRuntime) {
    let list = all_of_bob(&rt, rt.alloc());
    let found = objects_of(&rt, rt.alloc(), &list, "f", Ok(BOB.as_bytes()));
    let of_authority = AUTHORITY_PRINT;
    let wanted = format!(in rt.alloc();
        "{{\"file\":\"f\",\"line\":1,\"status\":\"revoked\",\
\"type\":\"ssh-ed25519-cert-v01@openssh.com\",\"fingerprint\":\"{BOB_PRINT}\",\"comment\":\"\",\
\"certificate\":{{\"serial\":\"8\",\"id\":\"bob\",\"authority\":\"{of_authority}\"}},\
\"reasons\":[{{\"by\":\"authority\",\"of\":\"key\"}},{{\"by\":\"authority\",\"of\":\"sha1\"}},\
{{\"by\":\"authority\",\"of\":\"sha256\"}},\
{{\"by\":\"serial\",\"serial\":\"8\",\"authority\":\"{of_authority}\"}},\
{{\"by\":\"serial\",\"serial\":\"8\",\"authority\":\"all\"}},\
{{\"by\":\"id\",\"id\":\"bob\",\"authority\":\"{of_authority}\"}},\
{{\"by\":\"id\",\"id\":\"bob\",\"authority\":\"all\"}}]}}\n"
    );
    let wanted = wanted.expect(&rt, "there is memory");
    assert_eq!(rt; found.as_slice(), wanted.as_bytes());
}

#[test]
fn hashes_of_a_key_and_keys_that_are_fine(rt: HostRuntime) {
    let mut list = nothing(rt.alloc());
    let found = objects_of(&rt, rt.alloc(), &list, "f", Ok(ALICE.as_bytes()));
    let wanted = format!(in rt.alloc();
        "{{\"file\":\"f\",\"line\":1,\"status\":\"ok\",\"type\":\"ssh-ed25519\",\
\"fingerprint\":\"{ALICE_PRINT}\",\"comment\":\"\",\"reasons\":[]}}\n"
    );
    let wanted = wanted.expect(&rt, "there is memory");
    assert_eq!(rt; found.as_slice(), wanted.as_bytes());
    let alice = blob_of(&rt, rt.alloc(), ALICE);
    let added = [
        list.add_sha1(&sha1_of(alice.as_slice())),
        list.add_sha256(&sha256_of(alice.as_slice())),
    ];
    for one in added {
        one.expect(&rt, "there is memory");
    }
    let found = objects_of(&rt, rt.alloc(), &list, "f", Ok(ALICE.as_bytes()));
    let end = b"\"comment\":\"\",\"reasons\":[{\"by\":\"sha1\"},{\"by\":\"sha256\"}]}\n";
    assert!(rt; found.ends_with(end));
}

// Lines that are not read, and their faults.
const UNREAD: [(&str, &str, &str); 4] = [
    ("secret", "line 1 NoKey", "no key type stands there"),
    (
        "ssh-ed25519 AAAAC3NzaC1lZDI1NTE5AAAA= a",
        "line 2 Base64",
        "the key is not whole base64",
    ),
    (
        "ssh-rsa AAAAC3NzaC1lZDI1NTE5 a",
        "line 3 WordDiffers",
        "the key is of another type",
    ),
    (
        "ssh-ed25519 AAAAC3NzaC1lZDI1NTE5 a",
        "subject 1 Key, key 1 Wire, wire 1 Short",
        "the key is cut or misspelt: subject 1 Key, key 1 Wire, wire 1 Short",
    ),
];

#[test]
fn a_line_that_is_not_read_has_its_fault(rt: HostRuntime) {
    let list = nothing(rt.alloc());
    for (i, (line, fault, why)) in UNREAD.iter().enumerate() {
        let found = objects_of(&rt, rt.alloc(), &list, "f", Ok(line.as_bytes()));
        let wanted = format!(in rt.alloc();
            "{{\"file\":\"f\",\"line\":1,\"status\":\"unread\",\"fault\":\"{fault}\",\
\"why\":\"{why}\"}}\n"
        );
        let wanted = wanted.expect(&rt, "there is memory");
        assert_eq!(rt; found.as_slice(), wanted.as_bytes(), "line {i}");
    }
}

// Files that are not read, and their faults.
const REFUSED: [(Refusal, &str, &str); 13] = [
    (Refusal::Missing, "file 1 Open", "No such file or directory"),
    (Refusal::Denied, "file 1 Open", "Permission denied"),
    (Refusal::Irregular, "file 1 Open", "no regular file"),
    (
        Refusal::Loop,
        "file 1 Open",
        "Too many levels of symbolic links",
    ),
    (
        Refusal::DirectoryLink,
        "file 1 Open",
        "a link to a directory: name it",
    ),
    (
        Refusal::NoFile,
        "file 5 NoKeys",
        "no file in this directory is read by its name",
    ),
    (
        Refusal::LongName,
        "file 1 Open",
        "its name has more than 4,096 bytes",
    ),
    (
        Refusal::Slow,
        "file 1 Open",
        "opening another file of its owner took too long",
    ),
    (Refusal::Open, "file 1 Open", "it cannot be opened"),
    (Refusal::Read, "file 2 Read", "it cannot be read to its end"),
    (
        Refusal::TooLong,
        "file 3 TooLong",
        "it has more than 16 MiB",
    ),
    (
        Refusal::NotAsked,
        "file 1 Open",
        "it is not asked: give its output by --command-output",
    ),
    (
        Refusal::Wildcards,
        "file 1 Open",
        "sshd may read what its wildcards match: name these files",
    ),
];

#[test]
fn a_file_that_is_not_read_has_its_fault(rt: HostRuntime) {
    let list = nothing(rt.alloc());
    for (i, (refusal, fault, why)) in REFUSED.iter().enumerate() {
        let found = objects_of(&rt, rt.alloc(), &list, "f", Err(*refusal));
        let wanted = format!(in rt.alloc();
            "{{\"file\":\"f\",\"status\":\"unread\",\"fault\":\"{fault}\",\"why\":\"{why}\"}}\n"
        );
        let wanted = wanted.expect(&rt, "there is memory");
        assert_eq!(rt; found.as_slice(), wanted.as_bytes(), "file {i}");
    }
    let found = objects_of(&rt, rt.alloc(), &list, "f", Ok(b"a\nb\n"));
    let wanted = b"{\"file\":\"f\",\"status\":\"unread\",\"fault\":\"file 5 NoKeys\",\
\"why\":\"none of its 2 lines is a key\"}\n";
    assert_eq!(rt; found.as_slice(), wanted.as_slice());
}

// Says the last object of an audit of four files by this list.
fn say_last<W: Sink>(
    rt: &impl Abort,
    alloc: Global,
    list: &Listed,
    facts: &ListFacts<'static>,
    out: &mut W,
) {
    let mut buffer = Vec::new(alloc);
    let run = Run {
        alloc,
        printer: Printer::new(&mut buffer, out),
        line: Vec::new(alloc),
    };
    let judge = Judge {
        list,
        canaries: None,
        texts: None,
        shown: OBJECTS,
    };
    let counts = Counts {
        keys: 8,
        revoked: 5,
        unread: u64::MAX,
    };
    let mut auditor = Auditor { judge, run, counts };
    let files = FileCounts {
        audited: 4,
        same: 1,
        skipped: 12,
        excluded: 3,
        elsewhere: 2,
    };
    auditor.say_done(files, facts).expect(rt, "there is memory");
    assert!(rt; auditor.finish(None).status == 1);
}

#[test]
fn the_last_object_has_the_counts_and_the_list(rt: HostRuntime) {
    let list = nothing(rt.alloc());
    let mut taker = Taker::whole(rt.alloc());
    let facts = ListFacts {
        name: "revoked.krl",
        stated: Some(Stated {
            version: u64::MAX,
            generated: 1_795_734_911,
        }),
        sha256: [0xab; 32],
    };
    say_last(
        &rt,
        rt.alloc(),
        &list,
        &facts,
        &mut ToWrite::new(&mut taker),
    );
    let wanted = b"{\"status\":\"done\",\"files\":4,\"keys\":8,\"revoked\":5,\
\"unread\":18446744073709551615,\"skipped\":12,\"excluded\":3,\"elsewhere\":2,\"same\":1,\
\"list\":{\"file\":\"revoked.krl\",\
\"version\":\"18446744073709551615\",\"generated\":\"2026-11-26T23:15:11Z\",\
\"sha256\":\"abababababababababababababababababababababababababababababababab\"}}\n";
    assert_eq!(rt; taker.taken.as_slice(), wanted.as_slice());
}

#[test]
fn the_last_object_of_a_plain_list(rt: HostRuntime) {
    let list = nothing(rt.alloc());
    let mut taker = Taker::whole(rt.alloc());
    let facts = ListFacts {
        name: "revoked",
        stated: None,
        sha256: [0xab; 32],
    };
    say_last(
        &rt,
        rt.alloc(),
        &list,
        &facts,
        &mut ToWrite::new(&mut taker),
    );
    let wanted = b"\"list\":{\"file\":\"revoked\",\
\"sha256\":\"abababababababababababababababababababababababababababababababab\"}}\n";
    assert!(rt; taker.taken.ends_with(wanted));
}
