//! Each kind of entry of a directory, and of a path that is named (krl(1), FILES THAT ARE READ).

use crate::tests::audits::{Asked, Case, LOUD, REVOKED, check, plain};
use crate::tests::shelf::{Item, Node};
use audit_lines::Refusal;
use audit_run::{Options, Search};

// The line of the key of the list, and that of another one.
const LISTED: &[u8] =
    b"ssh-ed25519 AAAAC3NzaC1lZDI1NTE5AAAAIOMqqnkVzrm0SdG6UOoqKLsabgH5C9okWi0dh2l9GKJl\n";

const OTHER: &[u8] =
    b"ssh-ed25519 AAAAC3NzaC1lZDI1NTE5AAAAIBERERERERERERERERERERERERERERERERERERERERER\n";

// A text with the key of the list in the middle of its second line.
const NOTE: &[u8] = b"the old key is
it: ssh-ed25519 AAAAC3NzaC1lZDI1NTE5AAAAIOMqqnkVzrm0SdG6UOoqKLsabgH5C9okWi0dh2l9GKJl (Bob)\n";

const ITEMS: &[Item<'static>] = &[
    Item("x", Node::File(0, 1, LISTED)),
    Item("fine", Node::File(0, 2, OTHER)),
    Item("empty", Node::File(0, 3, b"")),
    Item("pipe", Node::Special(LISTED)),
    Item("-", Node::Special(LISTED)),
    Item("home", Node::Directory(b"x\0authorized_keys\0sub\0.\0..\0")),
    Item("home/x", Node::File(0, 4, LISTED)),
    Item("home/authorized_keys", Node::File(0, 5, LISTED)),
    Item("home/sub", Node::Directory(b"b.pub\0B.pub\0a.pub\0")),
    Item("home/sub/b.pub", Node::File(0, 6, LISTED)),
    Item("home/sub/B.pub", Node::File(0, 7, LISTED)),
    Item("home/sub/a.pub", Node::File(0, 8, OTHER)),
    Item(
        "links",
        Node::Directory(b"to\0to.pub\0folder\0dotted\0.ssh\0id_dir\0gone\0id_gone\0loop\0"),
    ),
    Item("links/to", Node::Link("x")),
    Item("links/to.pub", Node::Link("x")),
    Item("links/folder", Node::Link("home")),
    Item("links/dotted", Node::Link("user/.ssh")),
    Item("links/.ssh", Node::Link("home")),
    Item("links/id_dir", Node::Link("home")),
    Item("user/.ssh", Node::Directory(b"")),
    Item("links/gone", Node::Link("nowhere")),
    Item("links/id_gone", Node::Link("nowhere")),
    Item("links/loop", Node::Link("looped")),
    Item("looped", Node::Hidden(Refusal::Loop)),
    Item("alias", Node::Link("home/sub")),
    Item("alias/b.pub", Node::File(0, 6, LISTED)),
    Item("alias/B.pub", Node::File(0, 7, LISTED)),
    Item("alias/a.pub", Node::File(0, 8, OTHER)),
    Item(
        "odd",
        Node::Directory(b"known_hosts\0pipe\0caf\xe9\0left.pub\0"),
    ),
    Item("odd/known_hosts", Node::Special(LISTED)),
    Item("odd/pipe", Node::Special(LISTED)),
    Item(
        "refused",
        Node::Directory(b"1.pub\x002.pub\x003.pub\x004.pub\x005.pub\x006.pub\x007\0"),
    ),
    Item("refused/1.pub", Node::Unopened(Refusal::Denied)),
    Item("refused/2.pub", Node::Unread(20, Refusal::Read)),
    Item("refused/3.pub", Node::Unread(21, Refusal::TooLong)),
    Item("refused/4.pub", Node::Swapped),
    Item("refused/5.pub", Node::Unopened(Refusal::Slow)),
    Item("refused/6.pub", Node::Unopened(Refusal::Open)),
    Item("refused/7", Node::Hidden(Refusal::Denied)),
    Item("closed", Node::Directory(b"in\0broken\0x.pub\0")),
    Item("closed/in", Node::Closed(Refusal::Denied)),
    Item("closed/broken", Node::Broken(b"a.pub\0")),
    Item("closed/x.pub", Node::File(0, 9, OTHER)),
    Item("shut", Node::Closed(Refusal::Denied)),
    Item(
        "twice",
        Node::Directory(b"authorized_keys\0authorized_keys2\0known_hosts\0x.pub\0y.pub\0"),
    ),
    Item("twice/authorized_keys", Node::File(0, 10, LISTED)),
    Item("twice/authorized_keys2", Node::File(0, 10, LISTED)),
    Item("twice/known_hosts", Node::File(0, 10, LISTED)),
    Item("twice/x.pub", Node::File(0, 10, LISTED)),
    Item("twice/y.pub", Node::File(1, 10, LISTED)),
    Item("every", Node::Directory(b"key\0pipe\0")),
    Item("every/key", Node::File(0, 11, LISTED)),
    Item("every/pipe", Node::Special(LISTED)),
    Item("nothing", Node::Directory(b"")),
    Item(
        "scanned",
        Node::Directory(b"note\0.git\0pipe\0blank\0null\0"),
    ),
    Item("scanned/note", Node::File(0, 40, NOTE)),
    Item("scanned/.git", Node::Directory(b"key\0")),
    Item("scanned/.git/key", Node::File(0, 41, LISTED)),
    Item("scanned/pipe", Node::Special(LISTED)),
    Item("scanned/blank", Node::File(0, 42, b"")),
    Item("scanned/null", Node::Null),
    Item("lists/authorized_keys.d", Node::Directory(b"bob\0")),
    Item("lists/authorized_keys.d/bob", Node::File(0, 43, NOTE)),
    Item(
        "etc/authorized_keys.d",
        Node::Directory(b"bob\0below\0pipe\0"),
    ),
    Item("etc/authorized_keys.d/bob", Node::File(0, 12, LISTED)),
    Item("etc/authorized_keys.d/below", Node::Directory(b"bob\0")),
    Item("etc/authorized_keys.d/below/bob", Node::File(0, 13, LISTED)),
    Item("etc/authorized_keys.d/pipe", Node::Special(LISTED)),
    Item(
        "null",
        Node::Directory(b"authorized_keys\0id_null\0known_hosts\0null\0"),
    ),
    Item("null/authorized_keys", Node::Link("null/null")),
    Item("null/id_null", Node::Link("null/null")),
    Item("null/known_hosts", Node::Null),
    Item("null/null", Node::Null),
    Item(
        "left",
        Node::Directory(b"cache.pub\0mounted\0x.pub\0deep\0"),
    ),
    Item("left/cache.pub", Node::Directory(b"x.pub\0")),
    Item("left/cache.pub/x.pub", Node::File(0, 30, LISTED)),
    Item("left/mounted", Node::Directory(b"x.pub\0")),
    Item("left/mounted/x.pub", Node::File(0, 31, LISTED)),
    Item("left/x.pub", Node::File(0, 32, OTHER)),
    Item("left/deep", Node::Directory(b"cache.pub\0")),
    Item("left/deep/cache.pub", Node::File(0, 33, LISTED)),
    Item("keys", Node::Directory(b"id_none\0ssh_host_key\0")),
    Item("keys/id_none", Node::File(0, 14, LISTED)),
    Item("keys/ssh_host_key", Node::Unread(22, Refusal::TooLong)),
];

const CASES: &[Case<'static>] = &[
    Case {
        paths: &["x"],
        text: &[b"x:1", REVOKED],
        counts: b"1 file, 1 key: 1 revoked in 1 file, 0 unread",
        status: 1,
    },
    Case {
        paths: &["fine", "empty"],
        text: &[],
        counts: b"2 files, 1 key: 0 revoked in 0 files, 0 unread",
        status: 0,
    },
    Case {
        paths: &["fine", "gone"],
        text: &[b"gone: unread: No such file or directory\n"],
        counts: b"2 files, 1 key: 0 revoked in 0 files, 1 unread",
        status: 3,
    },
    Case {
        paths: &["gone", "x", "fine"],
        text: &[b"gone: unread: No such file or directory\nx:1", REVOKED],
        counts: b"3 files, 2 keys: 1 revoked in 1 file, 1 unread",
        status: 1,
    },
    Case {
        paths: &["x", "x"],
        text: &[b"x:1", REVOKED, b"x: same: it was audited before\n"],
        counts: b"1 file, 1 key: 1 revoked in 1 file, 0 unread, 1 audited before",
        status: 1,
    },
    Case {
        paths: &["pipe", "pipe", "-"],
        text: &[b"pipe:1", REVOKED, b"pipe:1", REVOKED, b"-:1", REVOKED],
        counts: b"3 files, 3 keys: 3 revoked in 3 files, 0 unread",
        status: 1,
    },
    Case {
        paths: &["-", "fine", "-"],
        text: &[b"-:1", REVOKED],
        counts: b"3 files, 2 keys: 1 revoked in 1 file, 0 unread",
        status: 1,
    },
    Case {
        paths: &["home"],
        text: &[
            b"home/authorized_keys:1",
            REVOKED,
            b"home/sub/B.pub:1",
            REVOKED,
            b"home/sub/b.pub:1",
            REVOKED,
        ],
        counts: b"4 files, 4 keys: 3 revoked in 3 files, 0 unread, 1 skipped by its name",
        status: 1,
    },
    Case {
        paths: &["links"],
        text: &[
            b"links/.ssh: unread: a link to a directory: name it
links/dotted: unread: a link to a directory: name it
links/id_dir: unread: a link to a directory: name it
links/id_gone: unread: No such file or directory
links/loop: unread: Too many levels of symbolic links
links/to.pub:1",
            REVOKED,
        ],
        counts: b"6 files, 1 key: 1 revoked in 1 file, 5 unread, 3 skipped by their names",
        status: 1,
    },
    Case {
        paths: &["alias"],
        text: &[b"alias/B.pub:1", REVOKED, b"alias/b.pub:1", REVOKED],
        counts: b"3 files, 3 keys: 2 revoked in 2 files, 0 unread",
        status: 1,
    },
    Case {
        paths: &["odd"],
        text: &[
            b"odd/caf\\xe9: unread: it cannot be opened
odd/known_hosts: unread: no regular file
odd/left.pub: unread: No such file or directory\n",
        ],
        counts: b"3 files, 0 keys: 0 revoked in 0 files, 3 unread, 1 skipped by its name",
        status: 3,
    },
    Case {
        paths: &["refused"],
        text: &[
            b"refused/1.pub: unread: Permission denied
refused/2.pub: unread: it cannot be read to its end
refused/3.pub: unread: it has more than 16 MiB
refused/4.pub: unread: no regular file
refused/5.pub: unread: opening another file of its owner took too long
refused/6.pub: unread: it cannot be opened
refused/7: unread: Permission denied\n",
        ],
        counts: b"7 files, 0 keys: 0 revoked in 0 files, 7 unread",
        status: 3,
    },
    Case {
        paths: &["closed", "shut"],
        text: &[
            b"closed/broken: unread: it cannot be read to its end
closed/in: unread: Permission denied
shut: unread: Permission denied\n",
        ],
        counts: b"4 files, 1 key: 0 revoked in 0 files, 3 unread",
        status: 3,
    },
    Case {
        paths: &["twice"],
        text: &[
            b"twice/authorized_keys:1",
            REVOKED,
            b"twice/authorized_keys2: same: it was audited before\ntwice/known_hosts:1",
            REVOKED,
            b"twice/x.pub:1",
            REVOKED,
            b"twice/y.pub:1",
            REVOKED,
        ],
        counts: b"4 files, 4 keys: 4 revoked in 4 files, 0 unread, 1 audited before",
        status: 1,
    },
    Case {
        paths: &["every", "nothing"],
        text: &[
            b"every: unread: no file in this directory is read by its name
nothing: unread: no file in this directory is read by its name\n",
        ],
        counts: b"2 files, 0 keys: 0 revoked in 0 files, 2 unread, 2 skipped by their names",
        status: 3,
    },
    Case {
        paths: &["etc/authorized_keys.d"],
        text: &[
            b"etc/authorized_keys.d/bob:1",
            REVOKED,
            b"etc/authorized_keys.d/pipe: unread: no regular file\n",
        ],
        counts: b"2 files, 1 key: 1 revoked in 1 file, 1 unread, 1 skipped by its name",
        status: 1,
    },
    Case {
        paths: &["null"],
        text: &[],
        counts: b"2 files, 0 keys: 0 revoked in 0 files, 0 unread, 2 skipped by their names",
        status: 0,
    },
    Case {
        paths: &["left"],
        text: &[],
        counts: b"1 file, 1 key: 0 revoked in 0 files, 0 unread, 2 excluded, \
1 on other file systems",
        status: 0,
    },
    Case {
        paths: &["left/cache.pub", "left/mounted"],
        text: &[
            b"left/cache.pub/x.pub:1",
            REVOKED,
            b"left/mounted/x.pub:1",
            REVOKED,
        ],
        counts: b"2 files, 2 keys: 2 revoked in 2 files, 0 unread",
        status: 1,
    },
    Case {
        paths: &["keys"],
        text: &[b"keys/ssh_host_key: unread: it has more than 16 MiB\n"],
        counts: b"1 file, 0 keys: 0 revoked in 0 files, 1 unread, 1 skipped by its name",
        status: 3,
    },
];

#[test]
fn each_kind_of_entry(rt: HostRuntime) {
    for case in CASES {
        check(&rt, rt.alloc(), ITEMS, &plain(), case);
    }
}

#[test]
fn every_regular_file(rt: HostRuntime) {
    let all = Asked {
        search: Search::EveryFile,
        ..plain()
    };
    let case = Case {
        paths: &["every", "nothing"],
        text: &[b"every/key:1", REVOKED],
        counts: b"1 file, 1 key: 1 revoked in 1 file, 0 unread, 1 skipped by its name",
        status: 1,
    };
    check(&rt, rt.alloc(), ITEMS, &all, &case);
    let case = Case {
        paths: &["nothing"],
        text: &[],
        counts: b"0 files, 0 keys: 0 revoked in 0 files, 0 unread",
        status: 0,
    };
    check(&rt, rt.alloc(), ITEMS, &all, &case);
}

#[test]
fn keys_anywhere(rt: HostRuntime) {
    let anywhere = Asked {
        search: Search::Anywhere,
        names: Some(b"scanned/note\0pipe\0"),
        ..plain()
    };
    let case = Case {
        paths: &["scanned", "lists/authorized_keys.d", "pipe", "-", "-"],
        text: &[
            b"scanned/note:2:5",
            REVOKED,
            b"pipe: unread: no regular file\nscanned/.git/key:1:1",
            REVOKED,
            b"scanned/note: same: it was audited before\nlists/authorized_keys.d/bob:2:5",
            REVOKED,
            b"pipe:1:1",
            REVOKED,
            b"-:1:1",
            REVOKED,
        ],
        counts: b"9 files, 5 keys: 5 revoked in 5 files, 1 unread, 1 skipped by its name, \
1 audited before",
        status: 1,
    };
    check(&rt, rt.alloc(), ITEMS, &anywhere, &case);
}

#[test]
fn a_label(rt: HostRuntime) {
    let options = Options {
        label: Some("web01: "),
        ..LOUD
    };
    let labelled = Asked { options, ..plain() };
    let case = Case {
        paths: &["gone", "x", "x"],
        text: &[
            b"web01: gone: unread: No such file or directory\nweb01: x:1",
            REVOKED,
            b"web01: x: same: it was audited before\n",
        ],
        counts: b"2 files, 1 key: 1 revoked in 1 file, 1 unread, 1 audited before",
        status: 1,
    };
    check(&rt, rt.alloc(), ITEMS, &labelled, &case);
}

#[test]
fn a_quiet_audit_ends_at_the_first_file_with_a_revoked_key(rt: HostRuntime) {
    let options = Options {
        quiet: true,
        ..LOUD
    };
    let quiet = Asked { options, ..plain() };
    let case = Case {
        paths: &["gone", "x", "home"],
        text: &[],
        counts: b"2 files, 1 key: 1 revoked in 1 file, 1 unread",
        status: 1,
    };
    check(&rt, rt.alloc(), ITEMS, &quiet, &case);
}
