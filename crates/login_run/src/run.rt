//! The whole audit of logs.

ghost use Rattle.std.specs.Prelude.{◌≡◌, false};
ghost use Rattle.audit_run.specs.Reading.{SomeFailed};
ghost use Rattle.krl_audit.specs.Audit.{IsUsable};
ghost use Rattle.run_output.specs.Carries.{Carries};
ghost use Rattle.login_run.specs.Run.{EndsLogins, EndsMeant, VisitsOrder, last_if};
ghost use Rattle.login_run.specs.Run.{summary_of, summary_unless};

use crate::order::LoginOrder;
use crate::summary::{LoginSummary, login_status, write_done};
use crate::visit::visit_all;
use any_list::read_list;
use audit_run::{Tree, sha256_if, why_incomparable};
use byte_streams::{Sink, Source};
use krl_audit::{Auditor, Counts, Judge, ListFacts};
use krl_entries::Revocations;
use krl_fingerprints::fingerprint_list;
use krl_format::Stated;
use krl_openssh::Incomparable;
use run_faults::{Cause, RunFault};
use run_output::{Done, Printer, Run};
use span_sets::Held;
use ssh_wire::Bytes;
use std::alloc::Global;

/// The end of an audit of logs.
#[derive(Drop)]
pub enum LoginsEnd<'a> {
    /// It came to an end. One that no fault stopped has a summary.
    Ended {
        done: Done<'a>,
        summary: Option<LoginSummary>,
    },
    /// The list has names that cannot be compared with those of certificates.
    Incomparable(Incomparable),
    /// The list is refused.
    Refused(RunFault<'a>),
}

/// Where logs are found, and standard input.
#[derive(Drop)]
pub struct LogSources<'t, T: Tree, I: Source + Drop> {
    pub tree: &'t T,
    pub input: I,
}

// A list that was read, by its fingerprints.
#[derive(Clone, Copy)]
struct Queried<'q> {
    // The fingerprints of what it names.
    prints: &'q Revocations<Held>,
    // The number of its SHA-1 hashes.
    sha1s: u64,
    // Its version and its date. A plain list has none.
    stated: Option<Stated>,
    // The SHA-256 of its bytes, if the last object has it.
    sha256: Option<[u8; 32]>,
}

// The end of an audit of logs by a list that was read, and what was counted.
#[derive(Drop)]
struct Counted<'a> {
    done: Done<'a>,
    summary: Option<LoginSummary>,
}

// Why an audit of logs was stopped, and how many of them were visited.
#[derive(Drop)]
struct Visited<'a> {
    stop: Option<RunFault<'a>>,
    files: u64,
}

/// Asks a list about the logins of logs, given the bytes of the list. None are asked about if sshd
/// may read the list's certificate authorities or key IDs otherwise. The status is 255 if the audit
/// was stopped, otherwise 1 if the key or certificate of a login is revoked, otherwise 3 if
/// something was not read or the list has SHA-1 hashes, otherwise 0.
pub fn logins_run<'a, T: Tree, I: Source + Drop, W: Sink>(
    alloc: Global,
    order: &LoginOrder<'a>,
    list: Bytes,
    given: LogSources<'_, T, I>,
    out: &mut W,
) -> LoginsEnd<'a>
    requires texts { IsUsable order.now.texts }
    requires working { W.has_failed out.old ≡ false }
    requires input { I.has_failed given.input ≡ false }
    ensures { EndsLogins (T.states given.entry.tree.now) (SomeFailed I.has_failed) order.now list
        (I.left given.entry.input) (W.taken out.old) (W.taken out.new) (W.has_failed out.new)
        result }
{
    let read = match read_list(alloc, order.list, list.as_slice()) {
        Ok(read) => read,
        Err(fault) => return LoginsEnd::Refused(fault),
    };
    if let Some(why) = why_incomparable(&read, list.as_slice()) {
        return LoginsEnd::Incomparable(why);
    }
    let Ok(prints) = fingerprint_list(alloc, &read.revocations) else {
        return LoginsEnd::Refused(RunFault::whole(order.list, Cause::NoMemory));
    };
    let queried = Queried {
        prints: &prints,
        sha1s: read.revocations.sha1s() as u64,
        stated: read.stated(),
        sha256: sha256_if(order.shown, list.as_slice()),
    };
    drop(read);
    drop(list);
    let Counted { done, summary } = audit_by(alloc, order, &queried, given, out);
    LoginsEnd::Ended { done, summary }
}

// Asks a list that was read about the logins of logs.
fn audit_by<'a, T: Tree, I: Source + Drop, W: Sink>(
    alloc: Global,
    order: &LoginOrder<'a>,
    queried: &Queried<'_>,
    given: LogSources<'_, T, I>,
    out: &mut W,
) -> Counted<'a>
    requires texts { IsUsable order.now.texts }
    requires working { W.has_failed out.old ≡ false }
    requires input { I.has_failed given.input ≡ false }
    ensures { EndsMeant (T.states given.entry.tree.now) (SomeFailed I.has_failed) order.now
        queried.now (I.left given.entry.input) (W.taken out.old) (W.taken out.new)
        (W.has_failed out.new) result.summary result.done.status result.done.fault }
{
    let mut buffer = Vec::new(alloc);
    let printer = Printer::new(&mut buffer, out);
    let canaries: Option<&'a Revocations<Held>> = None;
    let judge = Judge {
        list: queried.prints,
        canaries,
        texts: order.texts,
        shown: order.shown,
    };
    let mut auditor = Auditor::new(alloc, judge, printer);
    let Visited { stop, files } = audit_all(&mut auditor, order, queried, given);
    let counts = auditor.counts;
    let Auditor { run, .. } = auditor;
    let Run {
        mut printer,
        line: _line,
        ..
    } = run;
    let fault = printer.finish(stop).fault;
    let Printer { out: _out, .. } = printer;
    let status = login_status(counts.status(fault.is_some()), queried.sha1s);
    let summary = summary_unless(&fault, summary_of(files, counts, queried));
    let done = Done { status, fault };
    Counted { done, summary }
}

// The counts of an audit of logs, and the list that it queried.
fn summary_of(files: u64, counts: Counts, queried: &Queried<'_>) -> LoginSummary
    ensures { result ≡ summary_of files counts queried.now }
{
    LoginSummary {
        files,
        counts,
        sha1s: queried.sha1s,
        stated: queried.stated,
    }
}

// The summary of an audit of logs that no fault stopped.
fn summary_unless(fault: &Option<RunFault>, summary: LoginSummary) -> Option<LoginSummary>
    ensures { result ≡ summary_unless fault.now summary }
{
    match fault {
        None => Some(summary),
        Some(_) => None,
    }
}

// Visits the logs, and prints the last object if there is one.
fn audit_all<'a, T: Tree, I: Source + Drop, W: Sink>(
    auditor: &mut Auditor<'_, '_, W>,
    order: &LoginOrder<'a>,
    queried: &Queried<'_>,
    given: LogSources<'_, T, I>,
) -> Visited<'a>
    requires input { I.has_failed given.input ≡ false }
    requires shown { auditor.old.judge.shown ≡ order.now.shown }
    requires texts { IsUsable auditor.old.judge.texts }
    ensures { VisitsOrder (T.states given.entry.tree.now) (SomeFailed I.has_failed) order.now
        queried.now (I.left given.entry.input) result.files result.stop auditor.old auditor.new }
{
    let LogSources { tree, input } = given;
    let mut input = Some(input);
    match visit_all(auditor, tree, order.files, &mut input) {
        Ok(files) => {
            let summary = summary_of(files, auditor.counts, queried);
            let stop = say_last(auditor, order, queried, &summary).err();
            Visited { stop, files }
        }
        Err(stop) => Visited {
            stop: Some(stop),
            files: 0,
        },
    }
}

// Prints the last object, if there is one.
fn say_last<'a, W: Sink>(
    auditor: &mut Auditor<'_, '_, W>,
    order: &LoginOrder<'a>,
    queried: &Queried<'_>,
    summary: &LoginSummary,
) -> Result<(), RunFault<'a>>
    ensures carries { Carries (last_if queried.now.sha256 order.now.list.now summary.now) result
        auditor.old.run.printer auditor.new.run.printer }
    ensures judge { auditor.new.judge ≡ auditor.old.judge }
    ensures counts { auditor.new.counts ≡ auditor.old.counts }
{
    let Some(sha256) = queried.sha256 else {
        return Ok(());
    };
    let facts = ListFacts {
        name: order.list,
        stated: summary.stated,
        sha256,
    };
    let made = write_done(summary, &facts, &mut auditor.run.line);
    auditor.run.say_line(order.list, made)
}
