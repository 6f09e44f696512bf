//! Whole checks, over a few files in memory.

ghost use Rattle.std.specs.Prelude.{◌≡◌, false};

use crate::tests::checks::{NINE, SERIAL_ZERO};
use any_list::Lists;
use audit_lines::Refusal;
use byte_streams::{Sink, ToWrite};
use check_run::{Host, Loaded, Unanswered, Used, check_run};
use key_text::LineFault;
use krl_arguments::Check;
use krl_types::KrlFault;
use list_conditions::SshdUse;
use run_faults::{Cause, FileFault, KeyCause};
use run_output::Done;
use ssh_wire::Bytes;
use std::alloc::{AllocError, Global};
use std::process::Abort;
use test_fixtures::{GITHUB_LINE, OTHER_LINE, Taker};

/// Lists that are named `l`, `o` and `b`, and the time of the clock. As files of keys there are the
/// published key in `key` and another one in `other`. There is no memory for `large`.
#[derive(Drop)]
pub struct Shelf {
    pub list: Result<&'static [u8], Cause>,
    pub other: Result<&'static [u8], Cause>,
    pub base: Result<&'static [u8], Cause>,
    pub moment: Option<u64>,
}

impl Lists for Shelf {
    ghost use Rattle.std.specs.Prelude.{None};

    ghost told = { λ _. None };

    fn read(&mut self, alloc: Global, name: &str) -> Result<Bytes, Cause> {
        let bytes = match name {
            "l" => self.list?,
            "o" => self.other?,
            _ => self.base?,
        };
        match Vec::from_slice(alloc, bytes) {
            Ok(bytes) => Ok(Bytes::from_vec(bytes)),
            Err(_) => Err(Cause::NoMemory),
        }
    }
}

impl Host for Shelf {
    fn read_keys(
        &mut self,
        name: &str,
        text: &mut Vec<u8>,
    ) -> Result<Result<(), Refusal>, AllocError> {
        text.clear();
        match name {
            "key" => text.extend_from_slice(GITHUB_LINE)?,
            "other" => text.extend_from_slice(OTHER_LINE)?,
            "large" => return Err(AllocError),
            _ => return Ok(Err(Refusal::Missing)),
        }
        Ok(Ok(()))
    }

    fn moment(&mut self) -> Option<u64> {
        self.moment
    }
}

// A list of version 7 that revokes the published key.
pub const SEVEN: &[u8] = b"SSHKRL\n\0\0\0\0\x01\0\0\0\0\0\0\0\x07\0\0\0\0\0\0\0\0\
\0\0\0\0\0\0\0\0\0\0\0\0\0\0\0\0\
\x02\0\0\0\x37\0\0\0\x33\0\0\0\x0bssh-ed25519\0\0\0\x20\
\xe3\x2a\xaa\x79\x15\xce\xb9\xb4\x49\xd1\xba\x50\xea\x2a\x28\xbb\
\x1a\x6e\x01\xf9\x0b\xda\x24\x5a\x2d\x1d\x87\x69\x7d\x18\xa2\x65";

/// The same with serial numbers 100 and 101 of all authorities.
pub const MORE: &[u8] = b"SSHKRL\n\0\0\0\0\x01\0\0\0\0\0\0\0\x07\0\0\0\0\0\0\0\0\
\0\0\0\0\0\0\0\0\0\0\0\0\0\0\0\0\
\x01\0\0\0\x1d\0\0\0\0\0\0\0\0\x21\0\0\0\x10\0\0\0\0\0\0\0\x64\0\0\0\0\0\0\0\x65\
\x02\0\0\0\x37\0\0\0\x33\0\0\0\x0bssh-ed25519\0\0\0\x20\
\xe3\x2a\xaa\x79\x15\xce\xb9\xb4\x49\xd1\xba\x50\xea\x2a\x28\xbb\
\x1a\x6e\x01\xf9\x0b\xda\x24\x5a\x2d\x1d\x87\x69\x7d\x18\xa2\x65";

// A plain list with a DSA key of small numbers.
const DSA_LINE: &[u8] = b"# a key\nssh-dss AAAAB3NzaC1kc3MAAAABAwAAAAEDAAAAAQMAAAABAw==\n";

/// A list, the one that it must not be older than, the one whose names it must have, the time of
/// the clock, the largest age, the most authorities, the list that the sshd of the output `t` uses,
/// and the files of keys that it must not revoke, and must revoke.
#[derive(Clone, Copy)]
pub struct Asked {
    pub list: Result<&'static [u8], Cause>,
    pub other: Option<Result<&'static [u8], Cause>>,
    pub base: Option<Result<&'static [u8], Cause>>,
    pub moment: Option<u64>,
    pub max_age: Option<u64>,
    pub max_cas: Option<u64>,
    pub sshd: Option<SshdUse>,
    pub keep: &'static [&'static str],
    pub canary: &'static [&'static str],
    pub allow_empty: bool,
    pub json: bool,
    pub print_version: bool,
}

/// Nothing but that a list revokes somebody.
pub const NOTHING: Asked = Asked {
    list: Ok(SEVEN),
    other: None,
    base: None,
    moment: None,
    max_age: None,
    max_cas: None,
    sshd: None,
    keep: &[],
    canary: &[],
    allow_empty: false,
    json: false,
    print_version: false,
};

const NO_FILE: Cause = Cause::File(FileFault::Open);

/// A check, the text that it prints, its status, and the name, the line and the cause of its fault.
pub type Row = (
    Asked,
    &'static [u8],
    u8,
    Option<(&'static str, Option<u64>, Cause)>,
);

const ROWS: [Row; 22] = [
    (NOTHING, b"", 0, None),
    (
        Asked {
            other: Some(Ok(SEVEN)),
            moment: Some(60),
            max_age: Some(60),
            keep: &["other"],
            canary: &["key"],
            ..NOTHING
        },
        b"",
        0,
        None,
    ),
    // Each condition fails, and a later one that holds changes nothing.
    (
        Asked {
            list: Ok(SERIAL_ZERO),
            other: Some(Ok(SEVEN)),
            moment: Some(NINE),
            max_age: Some(60),
            keep: &["none", "other"],
            canary: &["other"],
            ..NOTHING
        },
        b"openssh: l: it names serial number 0
empty: l: it revokes nobody
version: l: 1 is below 7
age: l: generated 1970-01-01T00:00:00Z, 498801h ago
none: unread: No such file or directory
keep: none: 0 of 0 keys are revoked, 1 line is not read
other:1: ok: ssh-ed25519 SHA256:SQfC+vTbLURn9cTkVxIS8fGQ3FKNAJWeB0o139+gV4M
canary: other: 0 of 1 key is revoked, 0 lines are not read\n",
        255,
        None,
    ),
    (
        Asked {
            keep: &["key", "other"],
            canary: &["key"],
            ..NOTHING
        },
        b"key:1: revoked: ssh-ed25519 SHA256:+DiY3wvvV6TuJJhbpZisF/zLDA0zPMSvHdkr4UvCOqU by its key
keep: key: 1 of 1 key is revoked, 0 lines are not read\n",
        1,
        None,
    ),
    // A section for all authorities counts as one.
    (
        Asked {
            list: Ok(MORE),
            max_cas: Some(0),
            ..NOTHING
        },
        b"slow: l: 1 CA, and 0 at most\n",
        1,
        None,
    ),
    (
        Asked {
            list: Ok(MORE),
            max_cas: Some(1),
            ..NOTHING
        },
        b"",
        0,
        None,
    ),
    // Plain lists.
    (
        Asked {
            list: Ok(DSA_LINE),
            max_cas: Some(0),
            ..NOTHING
        },
        b"openssh: l: line 2 has a DSA key, which OpenSSH 10 does not read\n",
        1,
        None,
    ),
    (
        Asked {
            list: Ok(GITHUB_LINE),
            other: Some(Ok(SEVEN)),
            moment: Some(NINE),
            max_age: Some(60),
            ..NOTHING
        },
        b"version: l: a plain list has no version\nage: l: a plain list has no date\n",
        1,
        None,
    ),
    (
        Asked {
            other: Some(Ok(GITHUB_LINE)),
            ..NOTHING
        },
        b"version: o: a plain list has no version\n",
        1,
        None,
    ),
    // A list that names all of another one, and lists that lack some of it.
    (
        Asked {
            list: Ok(MORE),
            base: Some(Ok(GITHUB_LINE)),
            ..NOTHING
        },
        b"",
        0,
        None,
    ),
    (
        Asked {
            base: Some(Ok(MORE)),
            ..NOTHING
        },
        b"  ca: all\n- serial: 100-101\nlost: b: 1 entry is not in l\n",
        1,
        None,
    ),
    (
        Asked {
            list: Ok(OTHER_LINE),
            base: Some(Ok(MORE)),
            canary: &["key"],
            ..NOTHING
        },
        b"  ca: all\n- serial: 100-101
- key: ssh-ed25519 AAAAC3NzaC1lZDI1NTE5AAAAIOMqqnkVzrm0SdG6UOoqKLsabgH5C9okWi0dh2l9GKJl \
# SHA256:+DiY3wvvV6TuJJhbpZisF/zLDA0zPMSvHdkr4UvCOqU
lost: b: 2 entries are not in l
key:1: ok: ssh-ed25519 SHA256:+DiY3wvvV6TuJJhbpZisF/zLDA0zPMSvHdkr4UvCOqU
canary: key: 0 of 1 key is revoked, 0 lines are not read\n",
        1,
        None,
    ),
    (
        Asked {
            list: Ok(SERIAL_ZERO),
            base: Some(Err(NO_FILE)),
            ..NOTHING
        },
        b"",
        255,
        Some(("b", None, NO_FILE)),
    ),
    (
        Asked {
            other: Some(Ok(b"SSHKRL\n\0")),
            base: Some(Err(NO_FILE)),
            ..NOTHING
        },
        b"",
        255,
        Some(("o", None, Cause::Krl(KrlFault::EndsEarly))),
    ),
    // The list of an sshd: behind what is lost, and before the files of keys.
    (
        Asked {
            base: Some(Ok(MORE)),
            sshd: Some(SshdUse::Other),
            canary: &["other"],
            ..NOTHING
        },
        b"  ca: all\n- serial: 100-101\nlost: b: 1 entry is not in l
sshd: l: the sshd of t uses another list
other:1: ok: ssh-ed25519 SHA256:SQfC+vTbLURn9cTkVxIS8fGQ3FKNAJWeB0o139+gV4M
canary: other: 0 of 1 key is revoked, 0 lines are not read\n",
        1,
        None,
    ),
    (
        Asked {
            sshd: Some(SshdUse::This),
            canary: &["key"],
            ..NOTHING
        },
        b"",
        0,
        None,
    ),
    // Lists that are not read.
    (
        Asked {
            list: Err(NO_FILE),
            other: Some(Err(NO_FILE)),
            ..NOTHING
        },
        b"",
        255,
        Some(("l", None, NO_FILE)),
    ),
    (
        Asked {
            list: Ok(b"SSHKRL\n\0"),
            other: Some(Err(NO_FILE)),
            ..NOTHING
        },
        b"",
        255,
        Some(("l", None, Cause::Krl(KrlFault::EndsEarly))),
    ),
    (
        Asked {
            list: Ok(SERIAL_ZERO),
            other: Some(Err(NO_FILE)),
            ..NOTHING
        },
        b"",
        255,
        Some(("o", None, NO_FILE)),
    ),
    (
        Asked {
            list: Ok(SERIAL_ZERO),
            other: Some(Ok(b"# c\nSSHKRL\n")),
            ..NOTHING
        },
        b"",
        255,
        Some(("o", Some(2), Cause::Key(KeyCause::Line(LineFault::NoKey)))),
    ),
    // The next file is not reached.
    (
        Asked {
            keep: &["other", "large", "key"],
            ..NOTHING
        },
        b"",
        255,
        Some(("large", None, Cause::NoMemory)),
    ),
    (
        Asked {
            list: Ok(SERIAL_ZERO),
            canary: &["large"],
            ..NOTHING
        },
        b"openssh: l: it names serial number 0\nempty: l: it revokes nobody\n",
        255,
        Some(("large", None, Cause::NoMemory)),
    ),
];

// Checks a list by these conditions.
fn checked<W: Sink>(
    alloc: Global,
    asked: &Asked,
    out: &mut W,
) -> Result<Result<Done<'static>, Unanswered>, AllocError>
    requires { W.has_failed out.old ≡ false }
{
    let mut shelf = Shelf {
        list: asked.list,
        other: asked.other.unwrap_or(Err(NO_FILE)),
        base: asked.base.unwrap_or(Err(NO_FILE)),
        moment: asked.moment,
    };
    let task = Check {
        list: "l",
        newer_than: asked.other.is_some().then_some("o"),
        superset_of: asked.base.is_some().then_some("b"),
        max_age: asked.max_age,
        max_cas: asked.max_cas,
        sshd: asked.sshd.is_some().then_some("t"),
        keep: Vec::from_slice(alloc, asked.keep)?,
        canary: Vec::from_slice(alloc, asked.canary)?,
        allow_empty: asked.allow_empty,
        json: asked.json,
        names: Vec::new(alloc),
        print_version: asked.print_version,
    };
    let loaded = Loaded {
        names: None,
        sshd: asked.sshd.map(|found| Used { output: "t", found }),
    };
    Ok(check_run(alloc, &task, loaded, &mut shelf, out))
}

// Returns true if a check was stopped by this fault, or by none.
fn is_stopped(done: &Done, wanted: &Option<(&str, Option<u64>, Cause)>) -> bool {
    match &done.fault {
        Some(fault) => match wanted {
            Some((name, line, cause)) => {
                fault.name == *name && fault.line == *line && fault.cause == *cause
            }
            None => false,
        },
        None => wanted.is_none(),
    }
}

// Checks by the conditions of a row, and returns how the check ended, and what was printed.
fn ended(alloc: Global, asked: &Asked) -> Option<(Done<'static>, Vec<u8>)> {
    let mut taker = Taker::whole(alloc);
    let mut out = ToWrite::new(&mut taker);
    let done = checked(alloc, asked, &mut out).ok()?.ok()?;
    Some((done, taker.taken))
}

/// Each check of these rows ends as its row says.
pub fn end_so(rt: &impl Abort, alloc: Global, rows: &[Row]) {
    for (asked, said, status, wanted) in rows {
        let (done, taken) = ended(alloc, asked).expect(rt, "the check has an end");
        assert!(rt; is_stopped(&done, wanted));
        assert!(rt; done.status == *status && taken.as_slice() == *said);
    }
}

#[test]
fn each_row(rt: HostRuntime) {
    end_so(&rt, rt.alloc(), &ROWS);
}

// A task for a list that can be read, why nothing is said about it, and the words for that.
const UNANSWERED: [(Asked, Unanswered, &[u8]); 2] = [
    (
        Asked {
            list: Ok(SERIAL_ZERO),
            max_age: Some(60),
            keep: &["none"],
            ..NOTHING
        },
        Unanswered::Clock,
        b"the clock of this host cannot be read",
    ),
    (
        Asked {
            list: Ok(GITHUB_LINE),
            print_version: true,
            ..NOTHING
        },
        Unanswered::Version,
        b"a plain list has no version",
    ),
];

#[test]
fn nothing_is_said(rt: HostRuntime) {
    for (i, (asked, wanted, words)) in UNANSWERED.iter().enumerate() {
        let mut taker = Taker::whole(rt.alloc());
        let mut out = ToWrite::new(&mut taker);
        let ended = checked(rt.alloc(), asked, &mut out).expect(&rt, "there is memory");
        assert!(rt; ended.err() == Some(*wanted), "row {i}");
        assert_eq!(rt; wanted.words(), *words, "row {i}");
        assert!(rt; taker.taken.is_empty(), "row {i}");
    }
}

#[test]
fn an_output_that_fails_ends_a_check(rt: HostRuntime) {
    let asked = Asked {
        keep: &["key"],
        allow_empty: true,
        ..NOTHING
    };
    let mut broken = Taker::new(rt.alloc(), 9, 0);
    let mut lost = ToWrite::new(&mut broken);
    let ended = checked(rt.alloc(), &asked, &mut lost).expect(&rt, "there is memory");
    assert!(rt; matches!(ended, Ok(done) if done.status == 255));
}
