//! The lines that report why a run stopped.

use crate::tests::runs::same;
use key_text::{LineFault, PrivateFault};
use krl_core::KrlFault;
use krl_spec::SpecCause;
use run_faults::{Cause, FileFault, KeyCause, RunFault, fault_text};
use ssh_cert::{CertFault, SubjectFault};
use ssh_key::KeyFault;
use ssh_wire::WireFault;

const SHORT: KeyFault = KeyFault::Wire(WireFault::Short);

// A name, a line, a cause, and how the three are printed after the name of the program.
type Row<'a> = (&'a str, Option<u64>, Cause, &'a str);

const ROWS: [Row<'static>; 16] = [
    (
        "id",
        None,
        Cause::Private(PrivateFault::Check),
        "id: private 6 Check",
    ),
    (
        "r.krl",
        None,
        Cause::Krl(KrlFault::CriticalExtension),
        "r.krl: krl 15 CriticalExtension",
    ),
    (
        "k",
        Some(1),
        Cause::Key(KeyCause::Line(LineFault::WordDiffers)),
        "k: line 1: line 3 WordDiffers",
    ),
    (
        "k",
        Some(u64::MAX),
        Cause::Key(KeyCause::Subject(SubjectFault::Key(SHORT))),
        "k: line 18446744073709551615: subject 1 Key, key 1 Wire, wire 1 Short",
    ),
    (
        "c",
        Some(3),
        Cause::Key(KeyCause::Subject(SubjectFault::Cert(CertFault::Authority(SHORT)))),
        "c: line 3: subject 2 Cert, cert 7 Authority, key 1 Wire, wire 1 Short",
    ),
    (
        "s",
        Some(2),
        Cause::Spec(SpecCause::NoAuthority),
        "s: line 2: spec 4 NoAuthority",
    ),
    (
        "a\n\x7f",
        None,
        Cause::NoMemory,
        "a\\x0a\\x7f: run 1 NoMemory",
    ),
    (
        "r.krl",
        None,
        Cause::VersionFull,
        "r.krl: run 2 VersionFull",
    ),
    (
        "r.krl",
        None,
        Cause::TextTooLong,
        "r.krl: run 3 TextTooLong",
    ),
    (
        "output",
        None,
        Cause::Output { count: u64::MAX },
        "output: output 1 Write after 18446744073709551615 bytes",
    ),
    ("k", None, Cause::File(FileFault::Open), "k: file 1 Open"),
    ("k", None, Cause::File(FileFault::Read), "k: file 2 Read"),
    (
        "k",
        None,
        Cause::File(FileFault::TooLong),
        "k: file 3 TooLong",
    ),
    (
        "k",
        None,
        Cause::File(FileFault::NoMemory),
        "k: file 4 NoMemory",
    ),
    (
        "k",
        None,
        Cause::File(FileFault::NoKeys),
        "k: file 5 NoKeys",
    ),
    (
        "r.krl",
        None,
        Cause::File(FileFault::Locked),
        "r.krl: file 7 Locked",
    ),
];

#[test]
fn lines(rt: HostRuntime) {
    for (i, (name, line, cause, want)) in ROWS.iter().enumerate() {
        let fault = RunFault {
            name: *name,
            line: *line,
            cause: *cause,
        };
        let text = fault_text(rt.alloc(), b"ssh-keygen", &fault).expect(&rt, "there is memory");
        let reported = text.strip_prefix(b"ssh-keygen: ").unwrap_or(b"no name");
        same(&rt, i, reported, want.as_bytes());
    }
}

// A body that reports a failed allocation above some size meets the contract. It fails here.
#[test]
fn a_long_name(rt: HostRuntime) {
    let mut name = String::new(rt.alloc());
    for _ in 0..10_000 {
        name.push_str("a\x7f").expect(&rt, "there is memory");
    }
    let fault = RunFault::whole(name.as_str(), Cause::NoMemory);
    let text = fault_text(rt.alloc(), b"ssh-keygen", &fault).expect(&rt, "there is memory");
    assert!(rt; text.len() == 12 + 10_000 * 5 + 2 + 14);
    assert!(rt; text.as_slice().ends_with(b"a\\x7f: run 1 NoMemory"));
}
