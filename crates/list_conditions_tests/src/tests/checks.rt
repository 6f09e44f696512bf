//! Each condition both ways, and how a check ends.

use audit_lines::Refusal;
use audit_text::Format;
use byte_streams::{FromRead, Sink, ToWrite};
use krl_core::read_krl;
use krl_entries::Revocations;
use krl_openssh::first_difference;
use list_conditions::{Checker, Condition, Role, SshdUse, names_nobody};
use plain_list::{DsaLine, DsaPart};
use run_faults::{RunFault, cause_of};
use run_output::Printer;
use span_sets::Held;
use std::alloc::Global;
use std::process::Abort;
use test_fixtures::{CONTAINER, FIVE, GITHUB, GITHUB_LINE, HEADER, OTHER_LINE, Taker, joined};

/// A condition that a list is checked for.
#[derive(Clone, Copy)]
pub enum Asked<'a> {
    /// These bytes, which OpenSSH is to read.
    OpenSsh(&'a [u8]),
    /// A file of keys.
    Keys(Role, &'a str, Result<&'a [u8], Refusal>),
    /// Another condition.
    That(Condition<'a>),
}

/// Checks a list.
pub fn check<'a, W: Sink>(
    checker: &mut Checker<'_, '_, W>,
    asked: Asked<'a>,
) -> Result<(), RunFault<'a>> {
    match asked {
        Asked::OpenSsh(bytes) => check_format(checker, bytes),
        Asked::Keys(role, name, content) => checker.check_keys(role, name, content),
        Asked::That(condition) => checker.check("r.krl", condition),
    }
}

// Checks the bytes of a list, which are read first.
fn check_format<W: Sink>(
    checker: &mut Checker<'_, '_, W>,
    bytes: &[u8],
) -> Result<(), RunFault<'static>> {
    let (read, _reader) = read_krl::<Held, _>(checker.auditor.run.alloc, FromRead::new(bytes));
    match read {
        Ok(_) => checker.check("r.krl", Condition::OpenSsh(first_difference(bytes))),
        Err(fault) => Err(RunFault::whole("r.krl", cause_of(fault))),
    }
}

// The output and the status of checks of a list that revokes the published key.
fn said(rt: &impl Abort, alloc: Global, form: Format, asked: &[Asked<'_>]) -> (Vec<u8>, u8) {
    let mut list: Revocations<Held> = Revocations::new(alloc);
    list.add_key(GITHUB).expect(rt, "there is memory");
    let mut taker = Taker::whole(alloc);
    let status = said_into(rt, alloc, &list, form, asked, &mut ToWrite::new(&mut taker));
    (taker.taken, status)
}

fn said_into<W: Sink>(
    rt: &impl Abort,
    alloc: Global,
    list: &Revocations<Held>,
    form: Format,
    asked: &[Asked<'_>],
    out: &mut W,
) -> u8 {
    let mut buffer = Vec::new(alloc);
    let mut checker = Checker::new(alloc, list, form, Printer::new(&mut buffer, out));
    for condition in asked {
        check(&mut checker, *condition).expect(rt, "there is memory");
    }
    checker.say_end("r.krl").expect(rt, "there is memory");
    checker.finish(None).status
}

// Lines of a plain list with DSA.
const DSA_KEY: DsaLine = DsaLine {
    number: 3,
    part: DsaPart::Key,
};

const DSA_AUTHORITY: DsaLine = DsaLine {
    number: 40_000,
    part: DsaPart::Authority,
};

// One condition, what is said, and the status.
const CHECKS: [(Asked<'static>, &[u8], u8); 44] = [
    (Asked::OpenSsh(&HEADER), b"", 0),
    (Asked::That(Condition::Version(7, 7)), b"", 0),
    (Asked::That(Condition::Version(8, 7)), b"", 0),
    (
        Asked::That(Condition::Version(6, 7)),
        b"version: r.krl: 6 is below 7\n",
        1,
    ),
    (
        Asked::That(Condition::Version(0, 18_446_744_073_709_551_615)),
        b"version: r.krl: 0 is below 18446744073709551615\n",
        1,
    ),
    (
        Asked::That(Condition::NoVersion),
        b"version: r.krl: a plain list has no version\n",
        1,
    ),
    (
        Asked::That(Condition::NoDate),
        b"age: r.krl: a plain list has no date\n",
        1,
    ),
    (Asked::That(Condition::OpenSshLines(None)), b"", 0),
    (
        Asked::That(Condition::OpenSshLines(Some(DSA_KEY))),
        b"openssh: r.krl: line 3 has a DSA key, which OpenSSH 10 does not read\n",
        1,
    ),
    (
        Asked::That(Condition::OpenSshLines(Some(DSA_AUTHORITY))),
        b"openssh: r.krl: line 40000 has a certificate of a DSA CA, which OpenSSH 10 does not \
read\n",
        1,
    ),
    (Asked::That(Condition::Slow(4_000, 4_000)), b"", 0),
    (
        Asked::That(Condition::Slow(4_001, 4_000)),
        b"slow: r.krl: 4001 CAs, and 4000 at most\n",
        1,
    ),
    (
        Asked::That(Condition::Slow(1, 0)),
        b"slow: r.krl: 1 CA, and 0 at most\n",
        1,
    ),
    (Asked::That(Condition::Empty(false)), b"", 0),
    (Asked::That(Condition::NothingLost("old.krl")), b"", 0),
    (
        Asked::That(Condition::Lost("old.krl", 0)),
        b"lost: old.krl: 0 entries are not in r.krl\n",
        1,
    ),
    (
        Asked::That(Condition::Lost("old.krl", 1)),
        b"lost: old.krl: 1 entry is not in r.krl\n",
        1,
    ),
    (
        Asked::That(Condition::Lost("old.krl", 100)),
        b"lost: old.krl: 100 entries are not in r.krl\n",
        1,
    ),
    (Asked::That(Condition::Sshd("t", SshdUse::This)), b"", 0),
    (
        Asked::That(Condition::Sshd("-", SshdUse::Nothing)),
        b"sshd: r.krl: the sshd of - uses no list\n",
        1,
    ),
    (
        Asked::That(Condition::Sshd("a\u{9b}", SshdUse::Other)),
        b"sshd: r.krl: the sshd of a\\x9b uses another list\n",
        1,
    ),
    // The largest age, and 5 minutes after the present moment.
    (Asked::That(Condition::Age(NINE, NINE + 60, 60)), b"", 0),
    (Asked::That(Condition::Age(NINE + 300, NINE, 0)), b"", 0),
    (
        Asked::That(Condition::Age(NINE, NINE + 61, 60)),
        b"age: r.krl: generated 2026-11-26T09:00:00Z, 61s ago\n",
        1,
    ),
    (
        Asked::That(Condition::Age(NINE, NINE + 119, 60)),
        b"age: r.krl: generated 2026-11-26T09:00:00Z, 119s ago\n",
        1,
    ),
    (
        Asked::That(Condition::Age(NINE, NINE + 7_199, 60)),
        b"age: r.krl: generated 2026-11-26T09:00:00Z, 119m ago\n",
        1,
    ),
    (
        Asked::That(Condition::Age(NINE, NINE + 49 * 3_600 + 3_599, 86_400)),
        b"age: r.krl: generated 2026-11-26T09:00:00Z, 49h ago\n",
        1,
    ),
    (
        Asked::That(Condition::Age(NINE + 301, NINE, 86_400)),
        b"age: r.krl: generated 2026-11-26T09:05:01Z, 5m from now\n",
        1,
    ),
    (
        Asked::That(Condition::Age(18_446_744_073_709_551_615, 0, 18_446_744_073_709_551_615)),
        b"age: r.krl: generated @18446744073709551615, 5124095576030431h from now\n",
        1,
    ),
    (
        Asked::That(Condition::Age(0, 18_446_744_073_709_551_615, 1)),
        b"age: r.krl: generated 1970-01-01T00:00:00Z, 5124095576030431h ago\n",
        1,
    ),
    (Asked::Keys(Role::Keep, "f", Ok(OTHER_LINE)), b"", 0),
    (Asked::Keys(Role::Canary, "f", Ok(GITHUB_LINE)), b"", 0),
    (
        Asked::Keys(Role::Keep, "f", Ok(GITHUB_LINE)),
        b"f:1: revoked: ssh-ed25519 SHA256:+DiY3wvvV6TuJJhbpZisF/zLDA0zPMSvHdkr4UvCOqU by its key
keep: f: 1 of 1 key is revoked, 0 lines are not read\n",
        1,
    ),
    (
        Asked::Keys(Role::Keep, "id", Ok(CONTAINER)),
        b"id:1: revoked: ssh-ed25519 SHA256:+DiY3wvvV6TuJJhbpZisF/zLDA0zPMSvHdkr4UvCOqU \
by its key: a
keep: id: 1 of 1 key is revoked, 0 lines are not read\n",
        1,
    ),
    (
        Asked::Keys(Role::Keep, "a\x1b", Ok(b"")),
        b"keep: a\\x1b: 0 of 0 keys are revoked, 0 lines are not read\n",
        1,
    ),
    (
        Asked::Keys(Role::Canary, "f", Ok(b"# none\n")),
        b"canary: f: 0 of 0 keys are revoked, 0 lines are not read\n",
        1,
    ),
    (
        Asked::Keys(Role::Keep, "f", Ok(b"x\n")),
        b"f:1: unread: no key type stands there
keep: f: 0 of 0 keys are revoked, 1 line is not read\n",
        1,
    ),
    (
        Asked::Keys(Role::Canary, "f", Ok(b"x\n")),
        b"f:1: unread: no key type stands there
canary: f: 0 of 0 keys are revoked, 1 line is not read\n",
        1,
    ),
    // A file without a key is reported as a whole, and its lines are counted one by one.
    (
        Asked::Keys(Role::Keep, "f", Ok(b"x\n# y\nz\n\nx\n")),
        b"f: unread: none of its 3 lines is a key
keep: f: 0 of 0 keys are revoked, 3 lines are not read\n",
        1,
    ),
    (
        Asked::Keys(Role::Canary, "f\u{9b}", Ok(b"x\ny\n")),
        b"f\\x9b: unread: none of its 2 lines is a key
canary: f\\x9b: 0 of 0 keys are revoked, 2 lines are not read\n",
        1,
    ),
    (Asked::Keys(Role::Canary, "id", Ok(CONTAINER)), b"", 0),
    (
        Asked::Keys(Role::Keep, "gone", Err(Refusal::Missing)),
        b"gone: unread: No such file or directory
keep: gone: 0 of 0 keys are revoked, 1 line is not read\n",
        255,
    ),
    (
        Asked::Keys(Role::Canary, "gone", Err(Refusal::Missing)),
        b"gone: unread: No such file or directory
canary: gone: 0 of 0 keys are revoked, 1 line is not read\n",
        255,
    ),
    (
        Asked::OpenSsh(SERIAL_ZERO),
        b"openssh: r.krl: it names serial number 0\n",
        1,
    ),
];

// One condition, and its object.
const OBJECTS: [(Asked<'static>, &[u8]); 21] = [
    (
        Asked::OpenSsh(&HEADER),
        b"{\"condition\":\"openssh\",\"passed\":true,\"list\":\"r.krl\"}\n",
    ),
    (
        Asked::OpenSsh(SERIAL_ZERO),
        b"{\"condition\":\"openssh\",\"passed\":false,\"list\":\"r.krl\",\
\"why\":\"it names serial number 0\"}\n",
    ),
    (
        Asked::That(Condition::OpenSshLines(None)),
        b"{\"condition\":\"openssh\",\"passed\":true,\"list\":\"r.krl\"}\n",
    ),
    (
        Asked::That(Condition::OpenSshLines(Some(DSA_KEY))),
        b"{\"condition\":\"openssh\",\"passed\":false,\"list\":\"r.krl\",\
\"why\":\"line 3 has a DSA key, which OpenSSH 10 does not read\"}\n",
    ),
    (
        Asked::That(Condition::Slow(0, 4_000)),
        b"{\"condition\":\"slow\",\"passed\":true,\"list\":\"r.krl\",\
\"cas\":0,\"most\":4000}\n",
    ),
    (
        Asked::That(Condition::Slow(12_945, 4_000)),
        b"{\"condition\":\"slow\",\"passed\":false,\"list\":\"r.krl\",\
\"cas\":12945,\"most\":4000}\n",
    ),
    (
        Asked::That(Condition::Empty(false)),
        b"{\"condition\":\"empty\",\"passed\":true,\"list\":\"r.krl\"}\n",
    ),
    (
        Asked::That(Condition::Empty(true)),
        b"{\"condition\":\"empty\",\"passed\":false,\"list\":\"r.krl\"}\n",
    ),
    (
        Asked::That(Condition::Version(7, 7)),
        b"{\"condition\":\"version\",\"passed\":true,\"list\":\"r.krl\",\
\"version\":\"7\",\"least\":\"7\"}\n",
    ),
    (
        Asked::That(Condition::Version(0, 18_446_744_073_709_551_615)),
        b"{\"condition\":\"version\",\"passed\":false,\"list\":\"r.krl\",\
\"version\":\"0\",\"least\":\"18446744073709551615\"}\n",
    ),
    (
        Asked::That(Condition::NoVersion),
        b"{\"condition\":\"version\",\"passed\":false,\"list\":\"r.krl\",\
\"why\":\"a plain list has no version\"}\n",
    ),
    (
        Asked::That(Condition::Age(NINE, NINE + 60, 60)),
        b"{\"condition\":\"age\",\"passed\":true,\"list\":\"r.krl\",\
\"generated\":\"2026-11-26T09:00:00Z\",\"now\":\"2026-11-26T09:01:00Z\",\"max_age\":60}\n",
    ),
    (
        Asked::That(Condition::Age(NINE + 301, NINE, 86_400)),
        b"{\"condition\":\"age\",\"passed\":false,\"list\":\"r.krl\",\
\"generated\":\"2026-11-26T09:05:01Z\",\"now\":\"2026-11-26T09:00:00Z\",\"max_age\":86400}\n",
    ),
    (
        Asked::That(Condition::NoDate),
        b"{\"condition\":\"age\",\"passed\":false,\"list\":\"r.krl\",\
\"why\":\"a plain list has no date\"}\n",
    ),
    (
        Asked::That(Condition::NothingLost("old.krl")),
        b"{\"condition\":\"lost\",\"passed\":true,\"list\":\"r.krl\",\
\"other\":\"old.krl\",\"entries\":0}\n",
    ),
    (
        Asked::That(Condition::Lost("old\".krl", 3)),
        b"{\"condition\":\"lost\",\"passed\":false,\"list\":\"r.krl\",\
\"other\":\"old\\\".krl\",\"entries\":3}\n",
    ),
    (
        Asked::That(Condition::Sshd("t", SshdUse::This)),
        b"{\"condition\":\"sshd\",\"passed\":true,\"list\":\"r.krl\",\"sshd\":\"t\"}\n",
    ),
    (
        Asked::That(Condition::Sshd("-", SshdUse::Nothing)),
        b"{\"condition\":\"sshd\",\"passed\":false,\"list\":\"r.krl\",\"sshd\":\"-\",\
\"why\":\"it uses no list\"}\n",
    ),
    (
        Asked::That(Condition::Sshd("a\"", SshdUse::Other)),
        b"{\"condition\":\"sshd\",\"passed\":false,\"list\":\"r.krl\",\"sshd\":\"a\\\"\",\
\"why\":\"it uses another list\"}\n",
    ),
    (
        Asked::Keys(Role::Keep, "f", Ok(OTHER_LINE)),
        b"{\"condition\":\"keep\",\"passed\":true,\"file\":\"f\",\
\"keys\":1,\"revoked\":0,\"unread\":0}\n",
    ),
    (
        Asked::Keys(Role::Canary, "f", Ok(OTHER_LINE)),
        b"{\"file\":\"f\",\"line\":1,\"status\":\"ok\",\"type\":\"ssh-ed25519\",\
\"fingerprint\":\"SHA256:SQfC+vTbLURn9cTkVxIS8fGQ3FKNAJWeB0o139+gV4M\",\"comment\":\"\",\
\"reasons\":[]}
{\"condition\":\"canary\",\"passed\":false,\"file\":\"f\",\
\"keys\":1,\"revoked\":0,\"unread\":0}\n",
    ),
];

// The last objects of checks whose conditions hold, and of others.
const ENDS: [&[u8]; 2] = [
    b"{\"status\":\"done\",\"passed\":true}\n",
    b"{\"status\":\"done\",\"passed\":false}\n",
];

#[test]
fn each_object(rt: HostRuntime) {
    for (i, (asked, wanted)) in OBJECTS.iter().enumerate() {
        let (text, status) = said(&rt, rt.alloc(), Format::Json, &[*asked]);
        let end = ENDS[usize::from(status != 0)];
        assert!(rt;
            text.starts_with(*wanted) && text.ends_with(end),
            "object {i}"
        );
        assert_eq!(rt; text.len(), wanted.len() + end.len(), "object {i}");
    }
}

/// 9:00:00 on 26 November 2026, in seconds since 1970.
pub const NINE: u64 = 1_795_683_600;

/// A list of serial number 0 of all authorities.
pub const SERIAL_ZERO: &[u8] = b"SSHKRL\n\0\0\0\0\x01\0\0\0\0\0\0\0\x01\0\0\0\0\0\0\0\0\
\0\0\0\0\0\0\0\0\0\0\0\0\0\0\0\0\
\x01\0\0\0\x15\0\0\0\0\0\0\0\0\x20\0\0\0\x08\0\0\0\0\0\0\0\0";

#[test]
fn each_condition(rt: HostRuntime) {
    for (i, (asked, wanted, status)) in CHECKS.iter().enumerate() {
        let (text, got) = said(&rt, rt.alloc(), Format::Text, &[*asked]);
        assert_eq!(rt; text.as_slice(), *wanted, "check {i}");
        assert_eq!(rt; got, *status, "check {i}");
    }
}

// A file of two keys, of which the list revokes the first one.
const BOTH: &[u8] = b"\
ssh-ed25519 AAAAC3NzaC1lZDI1NTE5AAAAIOMqqnkVzrm0SdG6UOoqKLsabgH5C9okWi0dh2l9GKJl
ssh-ed25519 AAAAC3NzaC1lZDI1NTE5AAAAIOYUDputd6M6v/apAWVamVjkTaHJqGoWEmh4spiW+2CM
";

// The last line for some conditions one after the other, and the status.
const ROWS: [(&[Asked<'static>], &[u8], u8); 4] = [
    (&[], b"", 0),
    (
        &[
            Asked::OpenSsh(&HEADER),
            Asked::Keys(Role::Keep, "other", Ok(OTHER_LINE)),
            Asked::Keys(Role::Canary, "canary", Ok(GITHUB_LINE)),
            Asked::That(Condition::Version(1, 1)),
        ],
        b"",
        0,
    ),
    (
        &[
            Asked::Keys(Role::Keep, "both", Ok(BOTH)),
            Asked::That(Condition::Version(1, 1)),
        ],
        b"keep: both: 1 of 2 keys are revoked, 0 lines are not read\n",
        1,
    ),
    (
        &[
            Asked::Keys(Role::Canary, "gone", Err(Refusal::Denied)),
            Asked::Keys(Role::Canary, "both", Ok(BOTH)),
        ],
        b"canary: both: 1 of 2 keys are revoked, 0 lines are not read\n",
        255,
    ),
];

// A condition that fails decides, wherever it is.
#[test]
fn many_conditions(rt: HostRuntime) {
    for (i, (asked, wanted, status)) in ROWS.iter().enumerate() {
        let (text, got) = said(&rt, rt.alloc(), Format::Text, *asked);
        assert!(rt; text.ends_with(*wanted), "row {i}");
        assert!(rt; text.is_empty() == wanted.is_empty(), "row {i}");
        assert_eq!(rt; got, *status, "row {i}");
    }
}

#[test]
fn nobody_is_revoked(rt: HostRuntime) {
    let list: Revocations<Held> = Revocations::new(rt.alloc());
    let mut taker = Taker::whole(rt.alloc());
    let mut out = ToWrite::new(&mut taker);
    let asked = [
        Asked::That(Condition::Empty(names_nobody(&list))),
        Asked::That(Condition::Version(1, 1)),
    ];
    assert!(rt; said_into(&rt, rt.alloc(), &list, Format::Text, &asked, &mut out) == 1);
    assert!(rt; taker.taken.as_slice() == b"empty: r.krl: it revokes nobody\n".as_slice());
}
