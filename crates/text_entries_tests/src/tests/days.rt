//! The last days of entries, read on 2026-11-15.

use crate::tests::lines::{TODAY, has_fault, made};
use crate::tests::runs::{inputs, said, text};
use krl_core::Revocations;
use std::alloc::Global;
use std::process::Abort;
use test_fixtures::{CERT_LINE, GITHUB_LINE, GITHUB_PRINT, OTHER_LINE, joined};
use text_entries::{NamesByKey, day_in};
use text_run::{Facts, Inputs, made_line, read_texts};

const BAD_DATE: &str = "text 18 BadDate";

const NO_LAST_DAY: &str = "text 19 NoLastDay";

const DATE_IN_COMMENT: &str = "text 20 DateInComment";

// Days of the calendar, and texts that are none.
static NUMBERED: [(&[u8], Option<i32>); 18] = [
    (b"1970-01-01", Some(0)),
    (b"1969-12-31", Some(-1)),
    (b"2000-02-29", Some(11_016)),
    (b"2026-11-15", Some(20_772)),
    (b"9999-12-31", Some(2_932_896)),
    (b"0000-01-01", Some(-719_528)),
    (b"1900-02-29", None),
    (b"2026-02-29", None),
    (b"2026-11-31", None),
    (b"2026-13-01", None),
    (b"2026-00-10", None),
    (b"2026-01-00", None),
    (b"2026-1-015", None),
    (b"2026/11/15", None),
    (b"-026-11-15", None),
    (b"2026-11-1:", None),
    (b"2026-11-155", None),
    (b"2026-11-1", None),
];

#[test]
fn days_are_numbered(rt: HostRuntime) {
    for (i, (text, number)) in NUMBERED.iter().enumerate() {
        assert!(rt; day_in(text) == *number, "in row {i}");
    }
}

// Texts with last days, and the same without.
static SAME: [(&[&[u8]], &[&[u8]]); 13] = [
    (
        &[b"ca: all\nuntil 2026-11-15 serial: 5"],
        &[b"ca: all\nserial: 5"],
    ),
    (
        &[b"ca: all\n\tUNTIL \t2026-11-16\tid: a # OPS-1210\r"],
        &[b"ca: all\nid: a"],
    ),
    (&[b"until 9999-12-31 @all id-hex: 61"], &[b"ca: all\nid: a"]),
    (&[b"until 2028-02-29 ", CERT_LINE], &[CERT_LINE]),
    // The other day counts: this one is in a comment.
    (
        &[b"until 2026-11-15 @all serial: 5 # until 2026-11-14"],
        &[b"ca: all\nserial: 5"],
    ),
    // The day before is over.
    (
        &[b"ca: all\nuntil 2026-11-14 serial: 5\nserial: 7"],
        &[b"ca: all\nserial: 7"],
    ),
    (&[b"until 2026-11-14 @all id: a"], &[]),
    (&[b"until 1969-12-31 @all serial: 5"], &[]),
    (&[b"until 0000-01-01 ", CERT_LINE], &[]),
    // Comments of other lines may have a day, and those of entries may have another word.
    (&[b"# until 2026-11-14"], &[]),
    (
        &[b"ca: all # until 2026-11-14\nid: a"],
        &[b"ca: all\nid: a"],
    ),
    (
        &[b"ca: all\nid: a # until further notice, 2026-11-14"],
        &[b"ca: all\nid: a"],
    ),
    (&[b"ca: all\nid: a # until 2026-2-28"], &[b"ca: all\nid: a"]),
];

#[test]
fn up_to_a_day(rt: HostRuntime) {
    let alloc = rt.alloc();
    for (i, (dated, plain)) in SAME.iter().enumerate() {
        let dated = joined(alloc, *dated).expect(&rt, "there is memory");
        let plain = joined(alloc, *plain).expect(&rt, "there is memory");
        let list = made(&rt, alloc, &dated).expect(&rt, "the text is right");
        let wanted = made(&rt, alloc, &plain).expect(&rt, "the text is right");
        assert!(rt; list == wanted, "in row {i}");
    }
}

// The parts of texts, the line of the first fault, and its name.
static FAULTY: [(&[&[u8]], u64, &str); 33] = [
    (&[b"until 2026-02-29 @all serial: 5"], 1, BAD_DATE),
    (&[b"until tomorrow @all serial: 5"], 1, BAD_DATE),
    (&[b"until @all serial: 5"], 1, BAD_DATE),
    (&[b"until 2026-11-155 @all serial: 5"], 1, BAD_DATE),
    (&[b"until 2026-11-15: serial: 5"], 1, BAD_DATE),
    (&[b"until 2026-11-1"], 1, BAD_DATE),
    (&[b"until 2026-11-15"], 1, NO_LAST_DAY),
    (&[b"until 2026-11-15 # @all serial: 5"], 1, NO_LAST_DAY),
    (&[b"until 2026-11-15 ca: all"], 1, NO_LAST_DAY),
    (&[b"until 2026-11-15 ca-blob: eA=="], 1, NO_LAST_DAY),
    (&[b"until 2026-11-15 @o: ", OTHER_LINE], 1, NO_LAST_DAY),
    (&[b"until 2026-11-15 ", OTHER_LINE], 1, NO_LAST_DAY),
    (&[b"until 2026-11-15 key: ", OTHER_LINE], 1, NO_LAST_DAY),
    (&[b"until 2026-11-14 key-blob: AQ=="], 1, NO_LAST_DAY),
    (&[b"until 2026-11-15 sha1: ", OTHER_LINE], 1, NO_LAST_DAY),
    (&[b"until 2026-11-15 sha256: ", OTHER_LINE], 1, NO_LAST_DAY),
    (&[b"until 2026-11-15 hash: ", GITHUB_PRINT], 1, NO_LAST_DAY),
    // The faults of a line that is over are the same.
    (
        &[b"until 2026-11-14 serial: 5"],
        1,
        "text 1 Spec, spec 4 NoAuthority",
    ),
    (
        &[b"until 2026-11-14 @all serial: 05"],
        1,
        "text 11 LeadingZero",
    ),
    (
        &[b"until 2026-11-14 @o serial: 5"],
        1,
        "text 16 UnknownName",
    ),
    (&[b"until 2026-11-14 @all id: a#b"], 1, "text 6 CutId"),
    (
        &[b"until 2026-11-14 until 2026-11-14 @all id: a"],
        1,
        "text 7 UnknownWord",
    ),
    (&[b"@all until 2026-11-14 id: a"], 1, "text 17 MarkedWord"),
    // A certificate that is over ends the current authority.
    (
        &[b"ca: all\nuntil 2026-11-14 ", CERT_LINE, b"\nserial: 5"],
        3,
        "text 1 Spec, spec 4 NoAuthority",
    ),
    (
        &[b"ca: all\nserial: x # until 2026-11-15"],
        2,
        DATE_IN_COMMENT,
    ),
    (&[b"@all id: a #Until=2026-11-15"], 1, DATE_IN_COMMENT),
    // The calendar need not have the date.
    (&[b"@all id: a # until 2026-02-30"], 1, DATE_IN_COMMENT),
    (&[b"@all id: a # until 0000-99-99"], 1, DATE_IN_COMMENT),
    (
        &[CERT_LINE, b" # OPS until:\t 2026-11-15."],
        1,
        DATE_IN_COMMENT,
    ),
    (&[OTHER_LINE, b" # until 2026-11-15"], 1, DATE_IN_COMMENT),
    (
        &[b"key: ", GITHUB_LINE, b" # until 2026-11-14"],
        1,
        DATE_IN_COMMENT,
    ),
    (
        &[b"hash: ", GITHUB_PRINT, b" # a # until 2026-11-14"],
        1,
        DATE_IN_COMMENT,
    ),
    (
        &[b"key-blob: AQ== # untiluntil2026-11-15"],
        1,
        DATE_IN_COMMENT,
    ),
];

#[test]
fn faults_of_days(rt: HostRuntime) {
    for (i, (parts, line, cause)) in FAULTY.iter().enumerate() {
        assert!(rt;
            has_fault(&rt, rt.alloc(), *parts, *line, cause),
            "in row {i}"
        );
    }
}

// Texts, and the words for their faults.
static TOLD: [(&[u8], &[u8]); 17] = [
    (
        b"untill 2026-11-15 @all id: a",
        b"a last day comes first on a line: until YYYY-MM-DD [text 7 UnknownWord]\n",
    ),
    (
        b"until: 2026-11-15 @all id: a",
        b"a last day comes first on a line: until YYYY-MM-DD [text 7 UnknownWord]\n",
    ),
    (
        b"@all until 2026-11-15 id: a",
        b"a last day comes first on a line: until YYYY-MM-DD [text 17 MarkedWord]\n",
    ),
    (
        b"until 2026-11-15 @all seral: 5",
        b"\"seral\" is no word of a text: did you mean \"serial:\"? [text 17 MarkedWord]\n",
    ),
    (
        b"until soon @all id: a",
        b"until needs a day, as YYYY-MM-DD [text 18 BadDate]\n",
    ),
    (
        b"until 2026-11-15 key-blob: AQ==",
        b"only a serial number, a key ID or a certificate has a last day [text 19 NoLastDay]\n",
    ),
    (
        b"@all id: a # until 2026-11-15",
        b"a day in a comment ends nothing: begin the line with until YYYY-MM-DD \
[text 20 DateInComment]\n",
    ),
    (
        b"key-blob: AQ== # until 2026-11-15",
        b"a key has no last day: take the day out of its comment [text 20 DateInComment]\n",
    ),
    (
        b"@all id: bob until 2026-11-15",
        b"a day in a key ID ends nothing: begin the line with until YYYY-MM-DD, or use id-hex: \
for a key ID that has one [text 21 DateInId]\n",
    ),
    (
        b"@all serial: 5 until 2026-11-15",
        b"a last day comes first on a line: until YYYY-MM-DD [text 1 Spec, spec 1 Number]\n",
    ),
    (
        b"@all serial: 5 until 2026-01-15",
        b"a last day comes first on a line: until YYYY-MM-DD [text 11 LeadingZero]\n",
    ),
    (
        b"@all serial: a5 until 15.11.2026",
        b"a serial number is a number below 2^64 [text 1 Spec, spec 1 Number]\n",
    ),
    (
        b"@all id-hex: 61 until 2026-11-15",
        b"a last day comes first on a line: until YYYY-MM-DD [text 5 Hex]\n",
    ),
    (
        b"@all id-hex: 6",
        b"no pairs of hexadecimal digits [text 5 Hex]\n",
    ),
    (
        b"@all keys: x",
        b"behind @NAME comes a colon and a key, or serial:, id: or id-hex: [text 17 MarkedWord]\n",
    ),
    (
        b"@user-ca: SHA256:x",
        b"no key type stands there [text 1 Spec, spec 6 Key, line 1 NoKey]\n",
    ),
    (
        b"@user-ca: serial: 5",
        b"behind @NAME and a colon comes a key: an entry has no colon there \
[text 1 Spec, spec 6 Key, line 1 NoKey]\n",
    ),
];

// The line about the fault of a text.
fn told(rt: &impl Abort, alloc: Global, bytes: &[u8]) -> Vec<u8> {
    let texts = [text(rt, alloc, Some(&[bytes]))];
    let inputs = inputs(&texts, false);
    let fault = read_texts(alloc, &inputs)
        .err()
        .expect(rt, "there is a fault");
    said(rt, alloc, &fault, &texts)
}

#[test]
fn words_for_days(rt: HostRuntime) {
    let alloc = rt.alloc();
    for (i, (text, words)) in TOLD.iter().enumerate() {
        let line = joined(alloc, &[b"krl: t: line 1: ", *words]).expect(&rt, "there is memory");
        assert!(rt; told(&rt, alloc, text) == line, "in row {i}");
    }
}

// The number of lines that are over in two texts, on a day up to its last second.
fn over_on(rt: &impl Abort, alloc: Global, day: u64) -> u64 {
    let texts = [
        text(
            rt,
            alloc,
            Some(&[b"until 2026-11-14 @all id: a\n@all id: b\n"]),
        ),
        text(
            rt,
            alloc,
            Some(&[b"until 2026-11-15 @all id: c\nuntil 2026-11-14 @all id: d\n"]),
        ),
    ];
    let inputs = Inputs {
        date: day.saturating_mul(86_400).saturating_add(86_399),
        ..inputs(&texts, false)
    };
    read_texts(alloc, &inputs)
        .expect(rt, "the texts are right")
        .over
}

#[test]
fn lines_that_are_over(rt: HostRuntime) {
    let alloc = rt.alloc();
    assert!(rt; over_on(&rt, alloc, TODAY.saturating_sub(1)) == 0);
    assert!(rt; over_on(&rt, alloc, TODAY) == 2);
    assert!(rt; over_on(&rt, alloc, TODAY.saturating_add(1)) == 3);
}

// How many lines are over, and how the line about the list ends.
static COUNTED: [(u64, &[u8]); 3] = [
    (0, b"nothing\n"),
    (1, b"nothing; 1 entry is over\n"),
    (2, b"nothing; 2 entries are over\n"),
];

#[test]
fn lines_say_what_is_over(rt: HostRuntime) {
    let alloc = rt.alloc();
    for (over, end) in COUNTED {
        let facts = Facts {
            version: 1,
            revocations: Revocations::new(alloc),
            lost: Revocations::new(alloc),
            over,
            names: NamesByKey::new(alloc),
        };
        let line = made_line(alloc, "r.krl", &facts).expect(&rt, "there is memory");
        let all = joined(alloc, &[b"krl make: r.krl: version 1: ", end]);
        assert!(rt; line == all.expect(&rt, "there is memory"));
    }
}
