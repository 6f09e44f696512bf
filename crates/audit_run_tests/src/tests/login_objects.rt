//! The objects that a search prints, and the last one (krl(1), krl logins and JSON).

use crate::tests::audits::LOUD;
use crate::tests::logins::{FINE_LOGIN, LOGIN, NOISE, Search, check, list_of_both};
use crate::tests::shelf::{Item, Node, Shelf};
use audit_run::Options;
use byte_streams::{Lent, ToWrite};
use login_run::{LogSources, LoginOrder, LoginsEnd, logins_run};
use ssh_wire::Bytes;
use std::test::Fail;
use test_fixtures::{GITHUB_LINE, Giver, Taker, joined};

const ITEMS: &[Item<'static>] = &[
    Item("a", Node::File(0, 1, LOGIN)),
    Item("fine", Node::File(0, 2, FINE_LOGIN)),
    Item("noise", Node::File(0, 3, NOISE)),
    Item("host", Node::File(0, 4, b"\nAccepted hostbased for bob\n")),
    Item("a.gz", Node::File(0, 5, b"\x1f\x8b\x08")),
];

const JSON: Options<'static> = Options { json: true, ..LOUD };

// The object of the login of `LOGIN`.
const REVOKED: &[u8] = b"{\"file\":\"a\",\"line\":1,\"status\":\"revoked\",\"type\":\"ED25519\",\
\"fingerprint\":\"SHA256:+DiY3wvvV6TuJJhbpZisF/zLDA0zPMSvHdkr4UvCOqU\",\"user\":\"root\",\
\"from\":\"127.0.0.1\",\"time\":\"Nov 30 18:38:47 vm sshd[30555]: \",\"step\":\"accepted\",\
\"reasons\":[{\"by\":\"key\"}]}\n";

// The object of the login of `FINE_LOGIN`.
const FINE: &[u8] = b"{\"file\":\"fine\",\"line\":1,\"status\":\"ok\",\"type\":\"ED25519\",\
\"fingerprint\":\"SHA256:RE0ZAsYmhXCrq75OR/3QxG+eyUgI1rLkxQpkbYWGCGI\",\"user\":\"root\",\
\"from\":\"127.0.0.1\",\"step\":\"accepted\",\"reasons\":[]}\n";

const UNREAD: &[u8] = b"{\"file\":\"host\",\"line\":2,\"status\":\"unread\",\
\"fault\":\"login 3 Hostbased\",\"why\":\"a login by the key of a host is not looked at\"}
{\"file\":\"a.gz\",\"status\":\"unread\",\"fault\":\"login 5 Packed\",\
\"why\":\"it is compressed: zcat prints it\"}
{\"file\":\"gone\",\"status\":\"unread\",\"fault\":\"file 1 Open\",\
\"why\":\"No such file or directory\"}\n";

// The end of the last object. The SHA-256 of the list is what sha256sum(1) prints for it.
const LIST: &[u8] = b",\"list\":{\"file\":\"revoked.krl\",\"version\":\"1\",\
\"generated\":\"1970-01-01T00:00:00Z\",\
\"sha256\":\"33773e22b29b9aaa8080ec6c1a76a2eb1b5b02c98cc7f5d74a1f82e89fd74fa0\"}}\n";

#[test]
fn objects(rt: HostRuntime) {
    let alloc = rt.alloc();
    let cases = [
        (
            JSON,
            Search {
                files: &["a", "fine", "noise", "host", "a.gz", "gone"],
                text: &[
                    REVOKED,
                    UNREAD,
                    b"{\"status\":\"done\",\"files\":6,\"logins\":2,\"revoked\":1,\"unread\":3",
                    LIST,
                ],
                counts: b"6 files, 2 logins: 1 revoked, 3 unread",
                status: 1,
            },
        ),
        (
            Options { all: true, ..JSON },
            Search {
                files: &["fine", "a"],
                text: &[
                    FINE,
                    REVOKED,
                    b"{\"status\":\"done\",\"files\":2,\"logins\":2,\"revoked\":1,\"unread\":0",
                    LIST,
                ],
                counts: b"2 files, 2 logins: 1 revoked, 0 unread",
                status: 1,
            },
        ),
        (
            JSON,
            Search {
                files: &["noise"],
                text: &[
                    b"{\"status\":\"done\",\"files\":1,\"logins\":0,\"revoked\":0,\"unread\":0",
                    LIST,
                ],
                counts: b"1 file, 0 logins: 0 revoked, 0 unread",
                status: 0,
            },
        ),
        // Not even the last object is printed.
        (
            Options {
                quiet: true,
                ..JSON
            },
            Search {
                files: &["fine", "a", "gone"],
                text: &[],
                counts: b"2 files, 2 logins: 1 revoked, 0 unread",
                status: 1,
            },
        ),
    ];
    for (options, search) in &cases {
        let list = list_of_both(&rt, alloc);
        check(
            &rt,
            alloc,
            list,
            ITEMS,
            Giver::new(b"", 1),
            *options,
            search,
        );
    }
}

// A plain list has no version.
#[test]
fn the_last_object_of_a_plain_list(rt: HostRuntime) -> Result<(), Fail> {
    let alloc = rt.alloc();
    let mut taker = Taker::whole(alloc);
    let mut out = ToWrite::new(&mut taker);
    let order = LoginOrder {
        list: "revoked",
        texts: None,
        shown: JSON.shown(),
        files: &["a"],
    };
    let given = LogSources {
        tree: &Shelf { items: ITEMS },
        input: Lent::new(b""),
    };
    let list = Bytes::from_vec(joined(alloc, &[GITHUB_LINE, b"\n"])?);
    let ended = logins_run(alloc, &order, list, given, &mut out);
    assert!(rt; matches!(&ended, LoginsEnd::Ended { done, .. } if done.status == 1));
    drop(out);
    let parts: [&[u8]; 2] = [
        REVOKED,
        b"{\"status\":\"done\",\"files\":1,\"logins\":1,\"revoked\":1,\"unread\":0,\
\"list\":{\"file\":\"revoked\",\
\"sha256\":\"2fb4dae9ab75591cea6a47627c0ac67f070d1bcbf15a4fed21308cd7b3ddf1ab\"}}\n",
    ];
    let wanted = joined(alloc, &parts)?;
    assert_eq!(rt; taker.taken.as_slice(), wanted.as_slice());
    Ok(())
}
