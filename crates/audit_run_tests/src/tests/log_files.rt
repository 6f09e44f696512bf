//! Logs of each kind, one after another: those that are not opened or not read to their end, files
//! that are no logs, long lines, and standard input (krl(1), krl logins).

use crate::tests::audits::LOUD;
use crate::tests::logins::{FINE_LOGIN, LOGIN, NOISE, REVOKED, Search, check, list_of_both};
use crate::tests::shelf::{Item, Node};
use audit_lines::Refusal;
use audit_run::Options;
use std::alloc::Global;
use std::process::Abort;
use test_fixtures::{Giver, Then, joined, repeated};

const ITEMS: &[Item<'static>] = &[
    Item("revoked", Node::File(0, 1, LOGIN)),
    Item("fine", Node::File(0, 2, FINE_LOGIN)),
    Item("noise", Node::File(0, 3, NOISE)),
    Item("empty", Node::File(0, 4, b"")),
    Item("pipe", Node::Special(LOGIN)),
    Item("link", Node::Link("revoked")),
    Item("directory", Node::Directory(b"x\0")),
    Item("denied", Node::Unopened(Refusal::Denied)),
    Item("broken", Node::Unread(20, Refusal::Read)),
    Item("a.gz", Node::File(0, 5, b"\x1f\x8b\x08\0\x0a\nx")),
    Item("a.xz", Node::File(0, 6, b"\xfd7zXZ\0\0\x04")),
    Item("a.zst", Node::File(0, 7, b"\x28\xb5\x2f\xfd\n")),
    Item("a.journal", Node::File(0, 8, b"LPKSHHRH\0\0\n")),
    Item(
        "later",
        Node::File(0, 9, b"x\n\x1f\x8b\nLPKSHHRH\n\xfd7zXZ\0\n"),
    ),
    Item("short", Node::File(0, 10, b"\x1f")),
    Item("shorter", Node::File(0, 11, b"\xfd7zXZ\nLPKSHHR\n")),
    Item("\x1b\u{9b}", Node::File(0, 12, LOGIN)),
];

const CASES: &[Search<'static>] = &[
    Search {
        files: &["revoked", "fine", "noise", "empty"],
        text: &[b"revoked:1", REVOKED],
        counts: b"4 files, 2 logins: 1 revoked, 0 unread",
        status: 1,
    },
    Search {
        files: &["fine", "noise", "empty"],
        text: &[],
        counts: b"3 files, 1 login: 0 revoked, 0 unread",
        status: 0,
    },
    // Each file is read each time that it is named, whatever leads to it.
    Search {
        files: &["revoked", "revoked", "link", "pipe"],
        text: &[
            b"revoked:1",
            REVOKED,
            b"revoked:1",
            REVOKED,
            b"link:1",
            REVOKED,
            b"pipe:1",
            REVOKED,
        ],
        counts: b"4 files, 4 logins: 4 revoked, 0 unread",
        status: 1,
    },
    Search {
        files: &["gone", "denied", "directory", "broken", "fine"],
        text: &[
            b"gone: unread: No such file or directory
denied: unread: Permission denied
directory: unread: it cannot be opened
broken: unread: it cannot be read to its end\n",
        ],
        counts: b"5 files, 1 login: 0 revoked, 4 unread",
        status: 3,
    },
    Search {
        files: &["gone", "revoked"],
        text: &[
            b"gone: unread: No such file or directory\nrevoked:1",
            REVOKED,
        ],
        counts: b"2 files, 1 login: 1 revoked, 1 unread",
        status: 1,
    },
    Search {
        files: &["a.gz", "a.xz", "a.zst", "a.journal"],
        text: &[
            b"a.gz: unread: it is compressed: zcat prints it
a.xz: unread: it is compressed: xzcat prints it
a.zst: unread: it is compressed: zstdcat prints it
a.journal: unread: it is a journal: journalctl --file prints it\n",
        ],
        counts: b"4 files, 0 logins: 0 revoked, 4 unread",
        status: 3,
    },
    // Only the beginning of a file shows that it is no log, and only all of its bytes do.
    Search {
        files: &["later", "short", "shorter"],
        text: &[],
        counts: b"3 files, 0 logins: 0 revoked, 0 unread",
        status: 0,
    },
    Search {
        files: &["\x1b\u{9b}"],
        text: &[b"\\x1b\\x9b:1", REVOKED],
        counts: b"1 file, 1 login: 1 revoked, 0 unread",
        status: 1,
    },
    // Standard input is read where it is first named.
    Search {
        files: &["fine", "-", "noise", "-"],
        text: &[b"-:5", REVOKED],
        counts: b"4 files, 3 logins: 1 revoked, 0 unread",
        status: 1,
    },
];

// The bytes of standard input: lines without a login, a login that is fine and one that is revoked.
fn input(rt: &impl Abort, alloc: Global) -> Vec<u8> {
    let parts = [NOISE, FINE_LOGIN, b"\n", LOGIN];
    joined(alloc, &parts).expect(rt, "there is memory")
}

#[test]
fn logs_of_each_kind(rt: HostRuntime) {
    let alloc = rt.alloc();
    let input = input(&rt, alloc);
    for case in CASES {
        let list = list_of_both(&rt, alloc);
        let giver = Giver::new(&input, 5);
        check(&rt, alloc, list, ITEMS, giver, LOUD, case);
    }
}

#[test]
fn a_quiet_search_ends_after_the_first_log_with_a_revoked_login(rt: HostRuntime) {
    let alloc = rt.alloc();
    let quiet = Options {
        quiet: true,
        ..LOUD
    };
    let cases = [
        Search {
            files: &["gone", "-", "revoked", "broken"],
            text: &[],
            counts: b"2 files, 2 logins: 1 revoked, 1 unread",
            status: 1,
        },
        Search {
            files: &["fine", "a.gz", "noise"],
            text: &[],
            counts: b"3 files, 1 login: 0 revoked, 1 unread",
            status: 3,
        },
    ];
    let input = input(&rt, alloc);
    for case in &cases {
        let list = list_of_both(&rt, alloc);
        check(&rt, alloc, list, ITEMS, Giver::new(&input, 5), quiet, case);
    }
}

#[test]
fn bytes_come_in_any_batches(rt: HostRuntime) {
    let alloc = rt.alloc();
    let input = input(&rt, alloc);
    let search = Search {
        files: &["-"],
        text: &[b"-:5", REVOKED],
        counts: b"1 file, 2 logins: 1 revoked, 0 unread",
        status: 1,
    };
    for size in 1..=input.len() {
        let list = list_of_both(&rt, alloc);
        let giver = Giver::new(&input, size);
        check(&rt, alloc, list, ITEMS, giver, LOUD, &search);
    }
}

// More bytes than are read at a time.
#[test]
fn a_long_log(rt: HostRuntime) {
    let alloc = rt.alloc();
    let lines = repeated(
        alloc,
        b"Nov 30 18:39:01 vm sshd[81]: Invalid user\n",
        10_000,
    );
    let lines = lines.expect(&rt, "there is memory");
    let log = joined(alloc, &[&lines, LOGIN, b"\n", &lines]).expect(&rt, "there is memory");
    let search = Search {
        files: &["-"],
        text: &[b"-:10001", REVOKED],
        counts: b"1 file, 1 login: 1 revoked, 0 unread",
        status: 1,
    };
    let list = list_of_both(&rt, alloc);
    check(&rt, alloc, list, ITEMS, Giver::whole(&log), LOUD, &search);
}

// A login, its line feed, and the bytes of a line that fills 16 MiB.
fn login_and_full_line(rt: &impl Abort, alloc: Global) -> Vec<u8> {
    let mut line = Vec::from_slice(alloc, LOGIN).expect(rt, "there is memory");
    line.push(b'\n').expect(rt, "there is memory");
    let size = line.len().saturating_add(16_777_216);
    line.resize(size, b'x').expect(rt, "there is memory");
    line
}

#[test]
fn a_line_of_16_mib(rt: HostRuntime) {
    let alloc = rt.alloc();
    let mut log = login_and_full_line(&rt, alloc);
    log.push(b'\n').expect(&rt, "there is memory");
    log.extend_from_slice(LOGIN).expect(&rt, "there is memory");
    let search = Search {
        files: &["-"],
        text: &[b"-:1", REVOKED, b"-:3", REVOKED],
        counts: b"1 file, 2 logins: 2 revoked, 0 unread",
        status: 1,
    };
    let list = list_of_both(&rt, alloc);
    check(&rt, alloc, list, ITEMS, Giver::whole(&log), LOUD, &search);
}

// What follows a line with a byte more is not read.
#[test]
fn a_longer_line(rt: HostRuntime) {
    let alloc = rt.alloc();
    let mut log = login_and_full_line(&rt, alloc);
    log.extend_from_slice(b"x\n").expect(&rt, "there is memory");
    log.extend_from_slice(LOGIN).expect(&rt, "there is memory");
    let search = Search {
        files: &["-"],
        text: &[
            b"-:1",
            REVOKED,
            b"-:2: unread: the line has more than 16 MiB, and what follows is not read\n",
        ],
        counts: b"1 file, 1 login: 1 revoked, 1 unread",
        status: 1,
    };
    let list = list_of_both(&rt, alloc);
    check(&rt, alloc, list, ITEMS, Giver::whole(&log), LOUD, &search);
}
