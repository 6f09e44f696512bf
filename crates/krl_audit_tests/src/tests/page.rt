//! The callers of the pages of `krl_audit`, `audit_lines`, `audit_text` and `json_lines`.

ghost use Rattle.std.specs.Prelude.{◌≡◌, ◌∷◌, [], OnOk, codes};
ghost use Rattle.json_lines.specs.Field.{json_line, number_field, object_of, text_field};

use crate::tests::keys::ALICE;
use crate::tests::made::alice_and_bob;
use audit_lines::{Fronts, Outcome, Refusal, Why, read_outcomes};
use audit_text::{Format, Location, say_unread};
use byte_streams::{Sink, ToWrite};
use json_lines::{Text, object};
use krl_audit::{Auditor, Counts, FileName, Judge, Shown};
use krl_entries::Revocations;
use run_faults::RunFault;
use run_output::{Printer, Run};
use span_sets::Held;
use std::alloc::{AllocError, Global};
use test_fixtures::Taker;

/// Audits one file by a list, and names what it finds.
fn audit_one<W: Sink>(
    run: Run<'_, W>,
    list: &Revocations<Held>,
    text: &[u8],
) -> Result<Counts, RunFault<'static>> {
    let shown = Shown {
        label: None,
        revoked: true,
        unread: true,
        fine: false,
        format: Format::Text,
    };
    let judge = Judge {
        list,
        canaries: None,
        texts: None,
        shown,
    };
    let mut auditor = Auditor {
        judge,
        run,
        counts: Counts::NONE,
    };
    let name = FileName {
        shown: "authorized_keys",
        read_as: Some("authorized_keys"),
    };
    auditor.audit_file(name, Ok(text))?;
    Ok(auditor.counts)
}

#[test]
fn one_file_is_audited(rt: HostRuntime) {
    let list = alice_and_bob(&rt, rt.alloc());
    let mut taker = Taker::whole(rt.alloc());
    let mut buffer = Vec::new(rt.alloc());
    let mut out = ToWrite::new(&mut taker);
    let run = Run {
        alloc: rt.alloc(),
        printer: Printer::new(&mut buffer, &mut out),
        line: Vec::new(rt.alloc()),
    };
    let counts = audit_one(run, &list, ALICE.as_bytes()).expect(&rt, "there is memory");
    assert!(rt; counts.keys == 1 && counts.revoked == 1 && counts.unread == 0);
}

/// Returns true if a line of a file of authorized keys has a key.
fn is_key_line(alloc: Global, line: &[u8]) -> Result<bool, AllocError> {
    let read = read_outcomes(alloc, Fronts::Options, line)?;
    match read.first {
        Outcome::Key(_) => Ok(true),
        Outcome::Empty | Outcome::Unread(_) => Ok(false),
    }
}

#[test]
fn a_line_has_a_key(rt: HostRuntime) {
    let key = is_key_line(rt.alloc(), ALICE.as_bytes());
    assert!(rt; key.expect(&rt, "there is memory"));
    let comment = is_key_line(rt.alloc(), b"# a");
    assert!(rt; !comment.expect(&rt, "there is memory"));
}

/// Makes the line about a file that the user may not read.
fn denied_line(alloc: Global, name: &str, line: &mut Vec<u8>) -> Result<(), AllocError> {
    say_unread(
        alloc,
        Format::Text,
        Location::file(None, name),
        Why::File(Refusal::Denied),
        line,
    )
}

#[test]
fn a_refusal_is_a_line(rt: HostRuntime) {
    let mut line = Vec::new(rt.alloc());
    denied_line(rt.alloc(), "a", &mut line).expect(&rt, "there is memory");
    assert_eq!(rt;
        line.as_slice(),
        b"a: unread: Permission denied\n".as_slice()
    );
}

/// Makes the line of an object with a name, which may be any bytes, and a count.
fn count_line(line: &mut Vec<u8>, name: &[u8], count: u64) -> Result<(), AllocError>
    ensures { OnOk result (line.new.items ≡ json_line (object_of
        (text_field (codes "name") name.now ∷ number_field (codes "count") count ∷ []))) }
{
    object!(line; "name": Text(name), "count": count)
}

#[test]
fn an_object_is_a_line(rt: HostRuntime) {
    let mut line = Vec::new(rt.alloc());
    count_line(&mut line, b"a", 3).expect(&rt, "there is memory");
    assert_eq!(rt;
        line.as_slice(),
        b"{\"name\":\"a\",\"count\":3}\n".as_slice()
    );
}
