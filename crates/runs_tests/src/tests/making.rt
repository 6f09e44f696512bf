//! Making and updating lists.

use crate::tests::runs::{CLOSED, File, LONG, all_named, holding, joined, named, repeated, same};
use byte_streams::Lent;
use krl_make::{AuthorityOption, Wanted, make_run};
use run_faults::fault_text;
use std::alloc::Global;
use std::process::Abort;
use test_fixtures::{
    CERT_LINE, CONTAINER, FIVE, GITHUB, GITHUB_LINE, HEADER, ID_A, KEY_SECTION, OTHER, OTHER_LINE,
    SHA256_SECTION,
};

// Makes the list `r.krl` from the old one, the authority and the files, at the moment 0. Returns
// the list, or the line of the fault.
fn made(
    rt: &impl Abort,
    alloc: Global,
    old: Option<&[u8]>,
    (authority, version): (&AuthorityOption, Option<u64>),
    files: &[File],
) -> Vec<u8> {
    let files = all_named(rt, alloc, files);
    let wanted = Wanted {
        name: "r.krl",
        update: old.is_some(),
        version,
        date: 0,
        authority,
        files: files.as_slice(),
    };
    let old = match old {
        Some(bytes) => Some(Lent::new(bytes)),
        None => None,
    };
    let made = make_run(alloc, &wanted, old);
    match made {
        Ok(list) => list.bytes,
        Err(fault) => fault_text(alloc, b"ssh-keygen", &fault).expect(rt, "there is memory"),
    }
}

// The list with this version and these sections.
fn list(rt: &impl Abort, alloc: Global, version: u64, sections: &[&[u8]]) -> Vec<u8> {
    let sections = joined(rt, alloc, sections);
    let number = version.to_be_bytes();
    joined(
        rt,
        alloc,
        &[&HEADER[..12], &number, &HEADER[20..], &sections],
    )
}

// The lines make a list of version 1 under this authority with these sections.
fn makes(
    rt: &impl Abort,
    alloc: Global,
    number: usize,
    (authority, lines): (&AuthorityOption, &[&[u8]]),
    sections: &[&[u8]],
) {
    let made = made(rt, alloc, None, (authority, Some(1)), &[("s", Some(lines))]);
    same(rt, number, &made, &list(rt, alloc, 1, sections));
}

const FIVE_AND_SIX: &[u8] =
    b"\x01\0\0\0\x1a\0\0\0\0\0\0\0\0\x22\0\0\0\x0d\0\0\0\0\0\0\0\x05\0\0\0\x01\x03";

const NINE: &[u8] =
    b"\x01\0\0\0\x1b\0\0\0\0\0\0\0\0\x22\0\0\0\x0e\0\0\0\0\0\0\0\x01\0\0\0\x02\x01\xff";

// The parts of a file, and the sections of the list that is made.
const MADE: [(&[&[u8]], &[&[u8]]); 7] = [
    (&[b"serial: 5"], &[FIVE]),
    (
        &[b"SeRiAl:\t0x10 \t-\t 020 # 6\r\n"],
        &[b"\x01\0\0\0\x15\0\0\0\0\0\0\0\0\x20\0\0\0\x08\0\0\0\0\0\0\0\x10"],
    ),
    (&[b"serial: 5\nserial: 5\nserial: 1-9"], &[NINE]),
    (&[b"serial: 1-9"], &[NINE]),
    (
        &[b"id: b\nid: a\nid: b"],
        &[b"\x01\0\0\0\x17\0\0\0\0\0\0\0\0\x23\0\0\0\x0a\0\0\0\x01a\0\0\0\x01b"],
    ),
    (
        &[b"hash: SHA256:+DiY3wvvV6TuJJhbpZisF/zLDA0zPMSvHdkr4UvCOqU"],
        &[SHA256_SECTION],
    ),
    (
        &[b"key: ", CERT_LINE, b"\n# c\n", GITHUB_LINE, b" me"],
        &[KEY_SECTION],
    ),
];

#[test]
fn of_lines(rt: HostRuntime) {
    for (i, (lines, sections)) in MADE.iter().enumerate() {
        makes(
            &rt,
            rt.alloc(),
            i,
            (&AuthorityOption::All, *lines),
            *sections,
        );
    }
}

// The position of the last digit of the certificate's serial in its line.
const SERIAL: usize = 144;

// The certificate with serial 0 is named by its key ID, under its own authority.
#[test]
fn of_a_certificate_without_a_serial(rt: HostRuntime) {
    let (front, back) = CERT_LINE.split_at(SERIAL);
    let lines = [front, b"A", back.get(1..).unwrap_or(&[])];
    let sections: [&[u8]; 3] = [
        b"\x01\0\0\0\x45\0\0\0\x33",
        OTHER,
        b"\0\0\0\0\x23\0\0\0\x05\0\0\0\x01a",
    ];
    makes(
        &rt,
        rt.alloc(),
        0,
        (&AuthorityOption::NotGiven, &lines),
        &sections,
    );
}

// The version and the sections of a list, the lines that are added under all authorities, and the
// sections of the new list.
type Update<'a> = (u64, &'a [&'a [u8]], &'a [u8], &'a [&'a [u8]]);

const UPDATES: [Update<'static>; 3] = [
    (1, &[FIVE], b"serial: 6", &[FIVE_AND_SIX]),
    (1, &[SHA256_SECTION], b"id: a", &[ID_A, SHA256_SECTION]),
    // a signature, which is not kept
    (
        7,
        &[KEY_SECTION, b"\x04\0\0\0\0\0\0\0\0"],
        b"id: a",
        &[ID_A, KEY_SECTION],
    ),
];

// Updating the old list with these lines, under all authorities, gives the new one.
fn updates(rt: &impl Abort, alloc: Global, number: usize, row: &Update) {
    let (version, old, lines, new) = *row;
    let old = list(rt, alloc, version, old);
    let new = list(rt, alloc, version.saturating_add(1), new);
    let how = (&AuthorityOption::All, None);
    let made = made(rt, alloc, Some(&old), how, &[("s", Some(&[lines]))]);
    same(rt, number, &made, &new);
}

#[test]
fn what_an_old_list_holds_stays(rt: HostRuntime) {
    for (i, row) in UPDATES.iter().enumerate() {
        updates(&rt, rt.alloc(), i, row);
    }
}

// The authority of the first key of a file. The file cannot be opened if it has no text.
fn authority<'a>(rt: &impl Abort, alloc: Global, text: Option<&[u8]>) -> AuthorityOption<'a> {
    let file = match text {
        Some(text) => holding("ca", joined(rt, alloc, &[text])),
        None => named(rt, alloc, &("ca", None)),
    };
    AuthorityOption::File(file)
}

// The section of serial 5 of a key's authority, up to the key.
const UNDER_A_KEY: &[u8] = b"\x01\0\0\0\x48\0\0\0\x33";

const FIVE_OF_IT: &[u8] = b"\0\0\0\0\x20\0\0\0\x08\0\0\0\0\0\0\0\x05";

// The first key in a file with this text, which has this blob, is the authority of serial 5.
fn is_authority(rt: &impl Abort, alloc: Global, number: usize, text: &[u8], key: &[u8]) {
    let authority = authority(rt, alloc, Some(text));
    let sections = [UNDER_A_KEY, key, FIVE_OF_IT];
    makes(rt, alloc, number, (&authority, &[b"serial: 5"]), &sections)
}

// The key of the first line with one, or the key of a container.
#[test]
fn the_first_key_of_the_file_is_the_authority(rt: HostRuntime) {
    let lines: [&[u8]; 5] = [b"\n# ca\n", OTHER_LINE, b" x\n", GITHUB_LINE, b"\nx\n"];
    let text = joined(&rt, rt.alloc(), &lines);
    is_authority(&rt, rt.alloc(), 0, &text, OTHER);
    is_authority(&rt, rt.alloc(), 1, CONTAINER, GITHUB);
}

// Lines with comments of this length, and as many lines without an entry. The first key of such a
// file is an authority too.
fn takes_long(rt: &impl Abort, alloc: Global, size: usize) {
    let letters = repeated(rt, alloc, b"a", size);
    let lines = repeated(rt, alloc, b"# a\n", size);
    let parts: [&[u8]; 7] = [&lines, b"#", &letters, b"\n", GITHUB_LINE, b" ", &letters];
    let text = joined(rt, alloc, &parts);
    makes(
        rt,
        alloc,
        size,
        (&AuthorityOption::All, &[&text]),
        &[KEY_SECTION],
    );
    is_authority(rt, alloc, size, &text, GITHUB)
}

#[test]
fn long_files_are_read(rt: HostRuntime) {
    for size in LONG {
        takes_long(&rt, rt.alloc(), size);
    }
}

// The lines of a file, and the line and the cause of the fault if they are used under all
// authorities.
const REFUSED: [(&[u8], &str); 6] = [
    (b"serial: 5-4", "s: line 1: spec 3 Reversed"),
    (b"serial: 0", "s: line 1: spec 2 Zero"),
    (b"serial: 0-5", "s: line 1: spec 2 Zero"),
    (b"\n\nserial: 08", "s: line 3: spec 1 Number"),
    (b"serial: 18446744073709551616", "s: line 1: spec 1 Number"),
    (b"x", "s: line 1: spec 6 Key, line 1 NoKey"),
];

// The old list, the authority and the lines give no list, but this fault.
fn refuses(
    rt: &impl Abort,
    alloc: Global,
    number: usize,
    old: Option<&[u8]>,
    (authority, lines): (&AuthorityOption, &[u8]),
    fault: &str,
) {
    let files: [File; 2] = [("s", Some(&[lines])), CLOSED];
    let made = made(rt, alloc, old, (authority, None), &files);
    let want = joined(rt, alloc, &[b"ssh-keygen: ", fault.as_bytes()]);
    same(rt, number, &made, &want);
}

#[test]
fn refused(rt: HostRuntime) {
    for (i, (lines, fault)) in REFUSED.iter().enumerate() {
        refuses(
            &rt,
            rt.alloc(),
            i,
            None,
            (&AuthorityOption::All, *lines),
            *fault,
        );
    }
    let full = list(&rt, rt.alloc(), u64::MAX, &[]);
    let closed = authority(&rt, rt.alloc(), None);
    let all = AuthorityOption::All;
    let others: [(Option<&[u8]>, &AuthorityOption, &[u8], &str); 5] = [
        (Some(&HEADER[..43]), &all, b"x", "r.krl: krl 3 EndsEarly"),
        (
            None,
            &AuthorityOption::NotGiven,
            b"# 1\nserial: 5",
            "s: line 2: spec 4 NoAuthority",
        ),
        (
            Some(full.as_slice()),
            &closed,
            b"x",
            "r.krl: run 2 VersionFull",
        ),
        (None, &closed, b"x", "ca: file 1 Open"),
        (None, &all, b"", "none: file 1 Open"),
    ];
    for (i, (old, authority, lines, fault)) in others.iter().enumerate() {
        refuses(&rt, rt.alloc(), 6 + i, *old, (*authority, *lines), *fault);
    }
}

// The length of the list of a key ID of this length, or of the line of its fault.
fn length(rt: &impl Abort, alloc: Global, id: usize) -> usize {
    let id = vec![in alloc; b'a'; id].expect(rt, "there is memory");
    let files: [File; 1] = [("s", Some(&[b"id: ", &id]))];
    made(rt, alloc, None, (&AuthorityOption::All, None), &files).len()
}

#[test]
fn long_lists(rt: HostRuntime) {
    assert!(rt; length(&rt, rt.alloc(), 16_777_150) == 16_777_216);
    assert!(rt; length(&rt, rt.alloc(), 67_108_798) == 67_108_864);
    assert!(rt;
        length(&rt, rt.alloc(), 67_108_799) == b"ssh-keygen: r.krl: run 3 TextTooLong".len()
    );
}
