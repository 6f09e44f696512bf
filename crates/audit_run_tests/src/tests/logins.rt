//! Searches for logins in logs of a tree in memory, by a list with a key, and with a serial number
//! and a key ID of a certificate authority (krl(1), krl logins).

use crate::tests::audits::LOUD;
use crate::tests::shelf::{Item, Node, Shelf};
use audit_run::Options;
use byte_streams::{FromRead, ToWrite};
use login_run::{LogSources, LoginOrder, LoginsEnd, logins_run, push_login_summary};
use ssh_wire::Bytes;
use std::alloc::Global;
use std::process::Abort;
use test_fixtures::{Giver, KEY_SECTION, Taker, joined, list_of};

// Serial number 5 and key ID bob of the authority with the key `OTHER`.
const AUTHORITY_SECTION: &[u8] = b"\x01\0\0\0\x54\0\0\0\x33\0\0\0\x0bssh-ed25519\0\0\0\x20\
\x11\x11\x11\x11\x11\x11\x11\x11\x11\x11\x11\x11\x11\x11\x11\x11\
\x11\x11\x11\x11\x11\x11\x11\x11\x11\x11\x11\x11\x11\x11\x11\x11\
\0\0\0\0\x20\0\0\0\x08\0\0\0\0\0\0\0\x05\x23\0\0\0\x07\0\0\0\x03bob";

/// The list of version 1 with this section, and with the key `GITHUB`.
pub fn list_of_both(rt: &impl Abort, alloc: Global) -> Vec<u8> {
    let sections = joined(alloc, &[AUTHORITY_SECTION, KEY_SECTION]).expect(rt, "there is memory");
    list_of(alloc, &sections).expect(rt, "there is memory")
}

/// A line of a login by the key of the list, and its finding after the number of the line.
pub const LOGIN: &[u8] =
    b"Nov 30 18:38:47 vm sshd[30555]: Accepted publickey for root from 127.0.0.1 port 56116 ssh2: \
ED25519 SHA256:+DiY3wvvV6TuJJhbpZisF/zLDA0zPMSvHdkr4UvCOqU";

pub const REVOKED: &[u8] =
    b": revoked: ED25519 SHA256:+DiY3wvvV6TuJJhbpZisF/zLDA0zPMSvHdkr4UvCOqU by its key: \
root from 127.0.0.1\n";

/// A line of a login by a key that the list does not have, and its finding.
pub const FINE_LOGIN: &[u8] = b"Accepted publickey for root from 127.0.0.1 port 37634 ssh2: \
ED25519 SHA256:RE0ZAsYmhXCrq75OR/3QxG+eyUgI1rLkxQpkbYWGCGI\r";

const FINE: &[u8] = b": ok: ED25519 SHA256:RE0ZAsYmhXCrq75OR/3QxG+eyUgI1rLkxQpkbYWGCGI: \
root from 127.0.0.1\n";

/// Lines about something else.
pub const NOISE: &[u8] = b"
Nov 30 18:38:47 vm sshd[30555]: Disconnected from user root 127.0.0.1 port 56116
Nov 30 18:39:01 vm CRON[81]: Accepted publickey for root
";

// Two lines of logins that are not read.
const UNREAD_LOGINS: &[u8] = b"Accepted hostbased for root from 127.0.0.1 port 52194 ssh2: ED25519 \
SHA256:SgFknqb8F9MmXxSsqiwpuqDBCrE1X3/e6Jlii1KPt5E
Nov 30 18:38:47 vm sshd[9]: Accepted publickey for win user from 127.0.0.1 port 34768 ssh2: \
ED25519 SHA256:wLTHBc5iWAcZbMN6HuvSvGTgDBqRmIm64izWMDwrwOs
";

// The front of a line of a login by a certificate, up to its key ID.
const CERTIFICATE: &[u8] = b"Accepted publickey for bob from ::1 port 38188 ssh2: ED25519-CERT \
SHA256:RE0ZAsYmhXCrq75OR/3QxG+eyUgI1rLkxQpkbYWGCGI ID ";

// The authorities of certificates, with the keys `OTHER` and `GITHUB`.
const BY_OTHER: &[u8] = b") CA ED25519 SHA256:SQfC+vTbLURn9cTkVxIS8fGQ3FKNAJWeB0o139+gV4M\n";

const BY_GITHUB: &[u8] = b") CA ED25519 SHA256:+DiY3wvvV6TuJJhbpZisF/zLDA0zPMSvHdkr4UvCOqU\r\n";

/// A search, and what it prints: its findings, the counts of its last line, and its status.
#[derive(Clone, Copy)]
pub struct Search<'a> {
    pub files: &'a [&'a str],
    pub text: &'a [&'a [u8]],
    pub counts: &'a [u8],
    pub status: u8,
}

/// Checks a search of a tree and of what a reader gives, by the list with these bytes.
pub fn check(
    rt: &impl Abort,
    alloc: Global,
    list: Vec<u8>,
    items: &[Item<'_>],
    input: Giver<'_>,
    options: Options<'_>,
    search: &Search<'_>,
) {
    let mut taker = Taker::whole(alloc);
    let mut out = ToWrite::new(&mut taker);
    let order = LoginOrder {
        list: "revoked.krl",
        texts: None,
        shown: options.shown(),
        files: search.files,
    };
    let tree = Shelf { items };
    let given = LogSources {
        tree: &tree,
        input: FromRead::new(input),
    };
    let ended = logins_run(alloc, &order, Bytes::from_vec(list), given, &mut out);
    let (status, line) = ended_with(rt, alloc, &ended);
    drop(out);
    let wanted = joined(alloc, search.text).expect(rt, "there is memory");
    assert_eq!(rt; taker.taken.as_slice(), wanted.as_slice());
    let parts: [&[u8]; 3] = [
        b"krl logins: ",
        search.counts,
        b" (list version 1, 1970-01-01T00:00:00Z)\n",
    ];
    let wanted = joined(alloc, &parts).expect(rt, "there is memory");
    assert_eq!(rt; line.as_slice(), wanted.as_slice());
    assert_eq!(rt; status, search.status);
}

// The status and the last line of a search.
fn ended_with(rt: &impl Abort, alloc: Global, ended: &LoginsEnd<'_>) -> (u8, Vec<u8>) {
    let mut line = Vec::new(alloc);
    match ended {
        LoginsEnd::Ended { done, summary } => {
            if let Some(summary) = summary {
                push_login_summary(alloc, summary, &mut line).expect(rt, "there is memory");
            }
            (done.status, line)
        }
        LoginsEnd::Incomparable(_) | LoginsEnd::Refused(_) => (255, line),
    }
}

// Checks a search of one log `a` with these parts by the list above.
fn check_log(
    rt: &impl Abort,
    alloc: Global,
    log: &[&[u8]],
    options: Options<'_>,
    search: &Search<'_>,
) {
    let log = joined(alloc, log).expect(rt, "there is memory");
    let items = [Item("a", Node::File(0, 1, &log))];
    let list = list_of_both(rt, alloc);
    check(rt, alloc, list, &items, Giver::new(b"", 1), options, search);
}

#[test]
fn a_revoked_key(rt: HostRuntime) {
    let search = Search {
        files: &["a"],
        text: &[b"a:4", REVOKED],
        counts: b"1 file, 2 logins: 1 revoked, 0 unread",
        status: 1,
    };
    let log = [NOISE, LOGIN, b"\n", FINE_LOGIN, b"\n"];
    check_log(&rt, rt.alloc(), &log, LOUD, &search);
    // The last line need not have a line feed.
    let search = Search {
        text: &[b"a:5", REVOKED],
        ..search
    };
    check_log(
        &rt,
        rt.alloc(),
        &[NOISE, FINE_LOGIN, b"\n", LOGIN],
        LOUD,
        &search,
    );
}

#[test]
fn revoked_certificates(rt: HostRuntime) {
    let parts: [&[u8]; 15] = [
        CERTIFICATE,
        b"alice (serial 5",
        BY_OTHER,
        CERTIFICATE,
        b"bob (serial 6",
        BY_OTHER,
        CERTIFICATE,
        b"alice (serial 6",
        BY_OTHER,
        CERTIFICATE,
        b"bob (serial 5",
        BY_GITHUB,
        CERTIFICATE,
        b"b\\157b (serial 5",
        BY_OTHER,
    ];
    let front: &[u8] =
        b": revoked: ED25519-CERT SHA256:RE0ZAsYmhXCrq75OR/3QxG+eyUgI1rLkxQpkbYWGCGI by ";
    let search = Search {
        files: &["a"],
        text: &[
            b"a:1",
            front,
            b"serial 5 of CA SHA256:SQfC+vTbLURn9cTkVxIS8fGQ3FKNAJWeB0o139+gV4M: \
bob from ::1 (ID alice)\na:2",
            front,
            b"key ID \"bob\" of CA SHA256:SQfC+vTbLURn9cTkVxIS8fGQ3FKNAJWeB0o139+gV4M: \
bob from ::1 (ID bob)\na:4",
            front,
            b"the key of its CA: bob from ::1 (ID bob)\na:5",
            front,
            b"serial 5 of CA SHA256:SQfC+vTbLURn9cTkVxIS8fGQ3FKNAJWeB0o139+gV4M, \
by key ID \"bob\" of CA SHA256:SQfC+vTbLURn9cTkVxIS8fGQ3FKNAJWeB0o139+gV4M: \
bob from ::1 (ID bob)\n",
        ],
        counts: b"1 file, 5 logins: 4 revoked, 0 unread",
        status: 1,
    };
    check_log(&rt, rt.alloc(), &parts, LOUD, &search);
}

#[test]
fn logins_that_are_not_read(rt: HostRuntime) {
    let search = Search {
        files: &["a"],
        text: &[
            b"a:1: unread: a login by the key of a host is not looked at
a:2: unread: the line of a login is malformed\n",
        ],
        counts: b"1 file, 1 login: 0 revoked, 2 unread",
        status: 3,
    };
    let log = [UNREAD_LOGINS, FINE_LOGIN];
    check_log(&rt, rt.alloc(), &log, LOUD, &search);
}

#[test]
fn all_logins(rt: HostRuntime) {
    let search = Search {
        files: &["a"],
        text: &[b"a:1", FINE, b"a:2", REVOKED, b"a:5", FINE],
        counts: b"1 file, 3 logins: 1 revoked, 0 unread",
        status: 1,
    };
    let log = [FINE_LOGIN, b"\n", LOGIN, NOISE, FINE_LOGIN, b"\n\n"];
    let all = Options { all: true, ..LOUD };
    check_log(&rt, rt.alloc(), &log, all, &search);
}

#[test]
fn each_finding_is_printed(rt: HostRuntime) {
    let alloc = rt.alloc();
    let line = joined(alloc, &[LOGIN, b"\n"]).expect(&rt, "there is memory");
    let mut log: Vec<&[u8]> = Vec::new(alloc);
    let mut numbers: Vec<String> = Vec::new(alloc);
    for number in 1..=30 {
        log.push(&line).expect(&rt, "there is memory");
        let number = format!(in alloc; "a:{number}").expect(&rt, "there is memory");
        numbers.push(number).expect(&rt, "there is memory");
    }
    let mut text: Vec<&[u8]> = Vec::new(alloc);
    for number in &numbers {
        text.push(number.as_bytes()).expect(&rt, "there is memory");
        text.push(REVOKED).expect(&rt, "there is memory");
    }
    let search = Search {
        files: &["a"],
        text: &text,
        counts: b"1 file, 30 logins: 30 revoked, 0 unread",
        status: 1,
    };
    check_log(&rt, alloc, &log, LOUD, &search);
}
