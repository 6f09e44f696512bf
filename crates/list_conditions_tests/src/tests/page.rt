//! The callers of the pages.

ghost use Rattle.std.specs.Prelude.{◌≡◌, false};

use crate::tests::runs::{SEVEN, Shelf};
use any_list::read_list;
use audit_text::Format;
use byte_streams::{FromRead, Sink, ToWrite};
use check_run::{Host, Loaded, check_run};
use krl_arguments::Check;
use krl_core::read_krl;
use krl_entries::Revocations;
use krl_openssh::first_difference;
use list_conditions::{Checker, Condition, Role};
use run_faults::{RunFault, cause_of};
use run_output::Printer;
use span_sets::Held;
use std::alloc::Global;
use test_fixtures::{FIVE, GITHUB, GITHUB_LINE, HEADER, OTHER_LINE, Taker, list_of};

/// Whether a list of these bytes, which the auditor has, does all that it must: the exit status.
fn status_of<W: Sink>(
    checker: &mut Checker<'_, '_, W>,
    bytes: &[u8],
    keep: &[u8],
    canary: &[u8],
) -> Result<u8, RunFault<'static>> {
    let (read, _reader) = read_krl::<Held, _>(checker.auditor.run.alloc, FromRead::new(bytes));
    match read {
        Ok(_) => { checker.check("revoked.krl", Condition::OpenSsh(first_difference(bytes)))? }
        Err(fault) => return Err(RunFault::whole("revoked.krl", cause_of(fault))),
    }
    checker.check_keys(Role::Keep, "keep.pub", Ok(keep))?;
    checker.check_keys(Role::Canary, "canary.pub", Ok(canary))?;
    Ok(checker.finish(None).status)
}

/// The version of a list that these bytes are, if they are one that has a version.
fn version_of(alloc: Global, bytes: &[u8]) -> Option<u64> {
    match read_list(alloc, "revoked.krl", bytes) {
        Ok(list) => Some(list.header?.version),
        Err(_) => None,
    }
}

/// Whether a list may be put in force by these conditions: nothing is printed if it may.
fn may_be_used<H: Host, W: Sink>(alloc: Global, task: &Check, host: &mut H, out: &mut W) -> bool
    requires { W.has_failed out.old ≡ false }
{
    let loaded = Loaded {
        names: None,
        sshd: None,
    };
    match check_run(alloc, task, loaded, host, out) {
        Ok(done) => done.status == 0,
        Err(_) => false,
    }
}

#[test]
fn the_callers_of_the_pages(rt: HostRuntime) {
    let bytes = list_of(rt.alloc(), FIVE).expect(&rt, "there is memory");
    let mut list: Revocations<Held> = Revocations::new(rt.alloc());
    list.add_key(GITHUB).expect(&rt, "there is memory");
    let mut taker = Taker::whole(rt.alloc());
    let mut buffer = Vec::new(rt.alloc());
    let mut out = ToWrite::new(&mut taker);
    let printer = Printer::new(&mut buffer, &mut out);
    let mut checker = Checker::new(rt.alloc(), &list, Format::Text, printer);
    let status = status_of(&mut checker, &bytes, OTHER_LINE, GITHUB_LINE);
    assert!(rt; status.expect(&rt, "there is memory") == 0);
    assert!(rt; version_of(rt.alloc(), &HEADER) == Some(1));
    assert!(rt; version_of(rt.alloc(), GITHUB_LINE).is_none());
    let task = Check {
        list: "l",
        newer_than: None,
        superset_of: None,
        max_age: None,
        max_cas: None,
        sshd: None,
        keep: Vec::new(rt.alloc()),
        canary: Vec::new(rt.alloc()),
        allow_empty: false,
        json: false,
        names: Vec::new(rt.alloc()),
        print_version: false,
    };
    let mut shelf = Shelf {
        list: Ok(SEVEN),
        other: Ok(SEVEN),
        base: Ok(SEVEN),
        moment: None,
    };
    let mut said = Taker::whole(rt.alloc());
    assert!(rt; may_be_used(rt.alloc(), &task, &mut shelf, &mut ToWrite::new(&mut said)));
}
