//! Auditing files.

use crate::tests::answered::{answered, ran_out};
use crate::tests::buffer::Buffer;
use audit_lines::{Fronts, Outcome, read_outcomes};
use audit_text::Format;
use byte_streams::{Sink, ToWrite};
use krl_audit::{Auditor, Counts, FileCounts, FileName, Judge, ListFacts, Shown};
use krl_core::Revocations;
use krl_format::Stated;
use run_faults::{Cause, RunFault};
use run_output::{Printer, Run};
use span_sets::Held;
use std::alloc::{AllocError, Global};
use test_fixtures::{CERT_LINE, CONTAINER, GITHUB, GITHUB_LINE, joined};

const FILE: FileName<'static> = FileName {
    shown: "f",
    read_as: Some("f"),
};

const PRIVATE: FileName<'static> = FileName {
    shown: "id",
    read_as: Some("id"),
};

// The text that is printed for the lines of `audited`.
const SAID: &[u8] = b"f:1: unread: no key type stands there
f:2: revoked: ssh-ed25519 SHA256:+DiY3wvvV6TuJJhbpZisF/zLDA0zPMSvHdkr4UvCOqU by its key: a
f:3: revoked: ssh-ed25519-cert-v01@openssh.com \
SHA256:+DiY3wvvV6TuJJhbpZisF/zLDA0zPMSvHdkr4UvCOqU by its key
id:1: revoked: ssh-ed25519 SHA256:+DiY3wvvV6TuJJhbpZisF/zLDA0zPMSvHdkr4UvCOqU by its key: a
";

// The objects that are printed for these lines, and the last object.
const OBJECTS: &[u8] = b"{\"file\":\"f\",\"line\":1,\"status\":\"unread\",\
\"fault\":\"line 1 NoKey\",\"why\":\"no key type stands there\"}
{\"file\":\"f\",\"line\":2,\"status\":\"revoked\",\"type\":\"ssh-ed25519\",\
\"fingerprint\":\"SHA256:+DiY3wvvV6TuJJhbpZisF/zLDA0zPMSvHdkr4UvCOqU\",\"comment_base64\":\"/w==\",\
\"reasons\":[{\"by\":\"key\"}]}
{\"file\":\"f\",\"line\":3,\"status\":\"revoked\",\"type\":\"ssh-ed25519-cert-v01@openssh.com\",\
\"fingerprint\":\"SHA256:+DiY3wvvV6TuJJhbpZisF/zLDA0zPMSvHdkr4UvCOqU\",\"comment\":\"\",\
\"options\":\"no-pty\",\"certificate\":{\"serial\":\"7\",\"id\":\"a\",\
\"authority\":\"SHA256:SQfC+vTbLURn9cTkVxIS8fGQ3FKNAJWeB0o139+gV4M\"},\
\"reasons\":[{\"by\":\"key\"},{\"by\":\"serial\",\"serial\":\"7\",\"authority\":\"all\"}]}
{\"file\":\"g\",\"status\":\"same\"}
{\"status\":\"done\",\"files\":1,\"keys\":2,\"revoked\":2,\"unread\":1,\"skipped\":2,\
\"excluded\":0,\"elsewhere\":0,\"same\":1,\"list\":{\"file\":\"l\",\
\"version\":\"1\",\"generated\":\"1970-01-01T00:00:00Z\",\
\"sha256\":\"0000000000000000000000000000000000000000000000000000000000000000\"}}
";

// Says that a name leads to the same file, and the last object.
fn say_rest<W: Sink>(
    auditor: &mut Auditor<'_, '_, W>,
    facts: &ListFacts<'static>,
) -> Result<(), RunFault<'static>> {
    auditor.say_same("g")?;
    let files = FileCounts {
        audited: 1,
        same: 1,
        skipped: 2,
        excluded: 0,
        elsewhere: 0,
    };
    auditor.say_done(files, facts)
}

// Audits a file of three lines, and says the rest.
fn said_as_objects<W: Sink>(
    alloc: Global,
    list: &Revocations<Held>,
    text: &[u8],
    out: &mut W,
) -> Option<RunFault<'static>> {
    let mut buffer = Vec::new(alloc);
    let run = Run {
        alloc,
        printer: Printer::new(&mut buffer, out),
        line: Vec::new(alloc),
    };
    let shown = Shown {
        label: None,
        revoked: true,
        unread: true,
        fine: false,
        format: Format::Json,
    };
    let mut auditor = Auditor {
        judge: Judge {
            list,
            canaries: None,
            texts: None,
            shown,
        },
        run,
        counts: Counts::NONE,
    };
    let facts = ListFacts {
        name: "l",
        stated: Some(Stated {
            version: 1,
            generated: 0,
        }),
        sha256: [0; 32],
    };
    let stop = match auditor.audit_file(FILE, Ok(text)) {
        Ok(()) => say_rest(&mut auditor, &facts).err(),
        Err(stop) => Some(stop),
    };
    let done = auditor.finish(stop);
    done.fault
}

#[test]
fn findings_are_said_as_objects(rt: HostRuntime) {
    let mut list: Revocations<Held> = Revocations::new(rt.alloc());
    for added in [list.add_key(GITHUB), list.add_serials(b"", 7, 7)] {
        if answered(&rt, added, AllocError).is_none() {
            return;
        }
    }
    let parts = [b"x\n".as_slice(), GITHUB_LINE, b" \xff\nno-pty ", CERT_LINE];
    let Some(text) = answered(&rt, joined(rt.alloc(), &parts), AllocError) else {
        return;
    };
    let mut said = Buffer::new();
    let stop = said_as_objects(rt.alloc(), &list, &text, &mut ToWrite::new(&mut said));
    match stop {
        None => assert!(rt; said.text() == OBJECTS),
        Some(stop) => {
            // The output before memory ran out is right.
            assert!(rt; stop.cause == Cause::NoMemory && OBJECTS.starts_with(said.text()));
            ran_out(&rt);
        }
    }
}

// Audits a file of three lines and a private key file.
fn audited<W: Sink>(
    alloc: Global,
    list: &Revocations<Held>,
    text: &[u8],
    out: &mut W,
) -> Option<RunFault<'static>> {
    let mut buffer = Vec::new(alloc);
    let run = Run {
        alloc,
        printer: Printer::new(&mut buffer, out),
        line: Vec::new(alloc),
    };
    let shown = Shown {
        label: None,
        revoked: true,
        unread: true,
        fine: false,
        format: Format::Text,
    };
    let mut auditor = Auditor {
        judge: Judge {
            list,
            canaries: None,
            texts: None,
            shown,
        },
        run,
        counts: Counts::NONE,
    };
    let stop = match auditor.audit_file(FILE, Ok(text)) {
        Ok(()) => auditor.audit_file(PRIVATE, Ok(CONTAINER)).err(),
        Err(stop) => Some(stop),
    };
    let done = auditor.finish(stop);
    done.fault
}

#[test]
fn files_are_audited(rt: HostRuntime) {
    let mut list: Revocations<Held> = Revocations::new(rt.alloc());
    if answered(&rt, list.add_key(GITHUB), AllocError).is_none() {
        return;
    }
    let parts = [b"x\n".as_slice(), GITHUB_LINE, b" a\n", CERT_LINE];
    let Some(text) = answered(&rt, joined(rt.alloc(), &parts), AllocError) else {
        return;
    };
    let mut said = Buffer::new();
    let stop = audited(rt.alloc(), &list, &text, &mut ToWrite::new(&mut said));
    match stop {
        None => assert!(rt; said.text() == SAID),
        Some(stop) => {
            // The text that was printed before the allocation failed is right.
            assert!(rt; stop.cause == Cause::NoMemory && SAID.starts_with(said.text()));
            ran_out(&rt);
        }
    }
}

#[test]
fn a_line_has_an_outcome(rt: HostRuntime) {
    let read = read_outcomes(rt.alloc(), Fronts::Either, GITHUB_LINE);
    if let Some(read) = answered(&rt, read, AllocError) {
        assert!(rt; matches!(read.first, Outcome::Key(_)) && read.second.is_none());
    }
}
