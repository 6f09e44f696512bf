//! Querying lists for the keys of files.

use crate::tests::runs::{CLOSED, File, KEY, LONG, ONE, Said, asks, joined, repeated};
use std::alloc::Global;
use std::process::Abort;
use test_fixtures::{CERT_LINE, CONTAINER, HEADER, ID_A, KEY_SECTION, OTHER_LINE};

const OTHER: File<'static> = ("a", Some(&[OTHER_LINE, b" x y\n"]));

const EARLY: &str = "ssh-keygen: r.krl: krl 3 EndsEarly";

// The parts of a list, the files, and the output of the run.
type Row<'a> = (&'a [&'a [u8]], &'a [File<'a>], Said<'a>);

const ROWS: [Row<'static>; 8] = [
    (&[&HEADER], &[KEY], (b"g.pub: ok\n", 0, "")),
    (
        ONE,
        &[KEY, OTHER],
        (b"g.pub: REVOKED\na (x y): ok\n", 1, ""),
    ),
    // a certificate of the key, and its private key
    (
        ONE,
        &[("c", Some(&[CERT_LINE])), ("id", Some(&[CONTAINER]))],
        (b"c: REVOKED\nid (a): REVOKED\n", 1, ""),
    ),
    // stops at a fault
    (
        ONE,
        &[KEY, CLOSED, KEY],
        (b"g.pub: REVOKED\n", 255, "ssh-keygen: none: file 1 Open"),
    ),
    (&[], &[CLOSED], (b"", 255, EARLY)),
    (&[b"\0\0\0"], &[KEY], (b"", 255, EARLY)),
    (
        &[b"\x54SHKRL\n\0\0\0\0\x01"],
        &[KEY],
        (b"", 255, "ssh-keygen: r.krl: krl 1 Magic"),
    ),
    (
        &[&HEADER, b"\x99"],
        &[KEY],
        (b"", 255, "ssh-keygen: r.krl: krl 4 UnknownSection"),
    ),
];

// A body that always reports a failed allocation meets the contracts. It fails here.
#[test]
fn reports_each_key_or_stops_at_a_fault(rt: HostRuntime) {
    for (i, (parts, files, said)) in ROWS.iter().enumerate() {
        asks(&rt, rt.alloc(), i, *parts, *files, *said);
    }
}

// A list longer than the files is streamed; the key is named before or after most of it.
#[test]
fn reports_each_key_of_a_list_that_passes(rt: HostRuntime) {
    let fill = repeated(&rt, rt.alloc(), ID_A, 200);
    let files = [
        KEY,
        OTHER,
        ("c", Some(&[CERT_LINE])),
        ("id", Some(&[CONTAINER])),
    ];
    let said: &[u8] = b"g.pub: REVOKED\na (x y): ok\nc: REVOKED\nid (a): REVOKED\n";
    for parts in [[&HEADER, KEY_SECTION, &fill], [&HEADER, &fill, KEY_SECTION]] {
        asks(&rt, rt.alloc(), 0, &parts, &files, (said, 1, ""));
        // the fault of the list comes first
        let faulty = joined(&rt, rt.alloc(), &parts);
        let unknown = "ssh-keygen: r.krl: krl 4 UnknownSection";
        asks(
            &rt,
            rt.alloc(),
            1,
            &[&faulty, b"\x99"],
            &files,
            (b"", 255, unknown),
        );
        let closed = "ssh-keygen: none: file 1 Open";
        let found: Said = (b"g.pub: REVOKED\n", 255, closed);
        asks(&rt, rt.alloc(), 2, &parts, &[KEY, CLOSED, KEY], found);
    }
}

// The run prints this text for the file with this name and these parts, and reports no revoked key.
fn is_ok<'a>(
    rt: &impl Abort,
    alloc: Global,
    number: usize,
    name: &'a str,
    parts: &'a [&'a [u8]],
    text: &[u8],
) {
    let file = (name, Some(parts));
    asks(rt, alloc, number, ONE, &[file], (text, 0, ""))
}

// A file with a long name has a key with a comment of the same length.
fn reports_long(rt: &impl Abort, alloc: Global, size: usize) {
    let shown = repeated(rt, alloc, b"a\\x7f", size);
    let mut name = String::new(alloc);
    for _ in 0..size {
        name.push_str("a\x7f").expect(rt, "there is memory");
    }
    let line = joined(rt, alloc, &[OTHER_LINE, b" ", name.as_bytes()]);
    let text = joined(rt, alloc, &[&shown, b" (", &shown, b"): ok\n"]);
    is_ok(rt, alloc, size, name.as_str(), &[&line], &text)
}

#[test]
fn reports_long_names_and_comments(rt: HostRuntime) {
    for size in LONG {
        reports_long(&rt, rt.alloc(), size);
    }
}
