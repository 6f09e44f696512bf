//! Lists of revocations, and what is printed for files.

use crate::tests::keys::{ALICE, AUTHORITY, BOB};
use audit_lines::Refusal;
use audit_text::Format;
use byte_streams::{Sink, ToWrite};
use key_text::{read_line, sha1_of, sha256_of};
use krl_audit::{Auditor, Counts, FileName, Judge, Shown};
use krl_entries::Revocations;
use run_output::{Printer, Run};
use span_sets::Held;
use ssh_wire::Bytes;
use std::alloc::Global;
use std::process::Abort;
use test_fixtures::Taker;

/// Revoked keys and unread lines are printed.
pub const FINDINGS: Shown<'static> = Shown {
    label: None,
    revoked: true,
    unread: true,
    fine: false,
    format: Format::Text,
};

/// All keys are printed.
pub const ALL: Shown<'static> = Shown {
    label: None,
    revoked: true,
    unread: true,
    fine: true,
    format: Format::Text,
};

/// All keys are printed, as objects.
pub const OBJECTS: Shown<'static> = Shown {
    label: None,
    revoked: true,
    unread: true,
    fine: true,
    format: Format::Json,
};

/// Nothing is printed.
pub const NOTHING: Shown<'static> = Shown {
    label: None,
    revoked: false,
    unread: false,
    fine: false,
    format: Format::Text,
};

/// The blob of the key of a line.
pub fn blob_of(rt: &impl Abort, alloc: Global, line: &str) -> Bytes {
    read_line(alloc, line.as_bytes())
        .expect(rt, "there is memory, and the line has a key")
        .blob
}

/// The revocations of a list.
pub type Listed = Revocations<Held>;

/// Nothing is revoked.
pub fn nothing(alloc: Global) -> Listed {
    Revocations::new(alloc)
}

/// Alice's key, and Bob's key ID under his authority.
pub fn alice_and_bob(rt: &impl Abort, alloc: Global) -> Listed {
    let mut list = nothing(alloc);
    let alice = blob_of(rt, alloc, ALICE);
    let authority = blob_of(rt, alloc, AUTHORITY);
    list.add_key(alice.as_slice()).expect(rt, "there is memory");
    list.add_id(authority.as_slice(), b"bob")
        .expect(rt, "there is memory");
    list
}

/// A list with each entry that names Bob's certificate beside his key, in the order of the reasons.
pub fn all_of_bob(rt: &impl Abort, alloc: Global) -> Listed {
    let mut list = nothing(alloc);
    let authority = blob_of(rt, alloc, AUTHORITY);
    let added = [
        list.add_key(authority.as_slice()),
        list.add_sha1(&sha1_of(authority.as_slice())),
        list.add_sha256(&sha256_of(authority.as_slice())),
        list.add_serials(authority.as_slice(), 8, 8),
        list.add_serials(b"", 1, 8),
        list.add_id(authority.as_slice(), b"bob"),
        list.add_id(b"", b"bob"),
    ];
    for one in added {
        one.expect(rt, "there is memory");
    }
    list
}

/// The text printed for a file, and the counts.
#[derive(Drop)]
pub struct Said {
    pub text: Vec<u8>,
    pub counts: Counts,
    pub status: u8,
}

/// The text that an audit of these files by a list prints, and its counts.
pub fn said_of(
    rt: &impl Abort,
    alloc: Global,
    list: &Listed,
    shown: Shown<'static>,
    files: &[(&str, Result<&[u8], Refusal>)],
) -> Said {
    let judge = Judge {
        list,
        canaries: None,
        texts: None,
        shown,
    };
    said_by(rt, alloc, judge, files)
}

/// The text that an audit of these files by a judge prints, and its counts.
pub fn said_by(
    rt: &impl Abort,
    alloc: Global,
    judge: Judge<'_>,
    files: &[(&str, Result<&[u8], Refusal>)],
) -> Said {
    let mut taker = Taker::whole(alloc);
    let mut out = ToWrite::new(&mut taker);
    let (counts, status) = audit_into(rt, alloc, judge, false, files, &mut out);
    Said {
        text: taker.taken,
        counts,
        status,
    }
}

/// The text that an audit of keys anywhere in a file prints, and its counts.
pub fn scanned(
    rt: &impl Abort,
    alloc: Global,
    list: &Listed,
    shown: Shown<'static>,
    text: &[u8],
) -> Said {
    let judge = Judge {
        list,
        canaries: None,
        texts: None,
        shown,
    };
    let mut taker = Taker::whole(alloc);
    let mut out = ToWrite::new(&mut taker);
    let (counts, status) = audit_into(rt, alloc, judge, true, &[("f", Ok(text))], &mut out);
    Said {
        text: taker.taken,
        counts,
        status,
    }
}

// Audits files, with keys anywhere in them or not, and returns the counts and the status.
fn audit_into<W: Sink>(
    rt: &impl Abort,
    alloc: Global,
    judge: Judge<'_>,
    anywhere: bool,
    files: &[(&str, Result<&[u8], Refusal>)],
    out: &mut W,
) -> (Counts, u8) {
    let mut buffer = Vec::new(alloc);
    let run = Run {
        alloc,
        printer: Printer::new(&mut buffer, out),
        line: Vec::new(alloc),
    };
    let mut auditor = Auditor {
        judge,
        run,
        counts: Counts::NONE,
    };
    for (name, content) in files {
        let file = FileName {
            shown: *name,
            read_as: if anywhere { None } else { Some(*name) },
        };
        auditor
            .audit_file(file, *content)
            .expect(rt, "there is memory");
    }
    let status = auditor.finish(None).status;
    (auditor.counts, status)
}
