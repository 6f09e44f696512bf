//! The whole audit.

ghost use Rattle.std.specs.Prelude.{◌≡◌, Option, Some, false, IfSome};
ghost use Rattle.std.specs.Result.{result_err};
ghost use Rattle.run_output.specs.Carries.{Carries};
ghost use Rattle.audit_text.specs.Place.{label_now};
ghost use Rattle.krl_audit.specs.Audit.{IsUsable};
ghost use Rattle.audit_run.specs.Run.{AuditsAll, EndsAuditBy, EndsAuditRun, HasNames, IsGiven, IsMet};
ghost use Rattle.audit_run.specs.Run.{is_hashed, last_items, names_fault, readers_of, sha256_if};
ghost use Rattle.audit_run.specs.Run.{stop_fault, summary_of, summary_unless};
ghost use Rattle.audit_run.specs.Visits.{Took};

use crate::named::{audit_listed, audit_paths};
use crate::order::Order;
use crate::round::{Round, Screen};
use crate::sought::audit_sought;
use crate::stop::Stop;
use crate::summary::Summary;
use crate::tree::Tree;
use any_list::{List as ReadList, read_list};
use audit_text::Format;
use byte_streams::Source;
use key_text::sha256_of;
use krl_audit::{Auditor, Judge, ListFacts, Shown};
use krl_entries::Revocations;
use krl_format::Stated;
use krl_openssh::{Incomparable, first_incomparable};
use run_faults::{Cause, FileFault, RunFault};
use run_output::{Done, Printer, Run};
use span_sets::Held;
use ssh_wire::Bytes;
use std::alloc::Global;

// A list that was read.
#[derive(Clone, Copy)]
struct Queried<'q> {
    // The entries that it revokes by.
    list: &'q Revocations<Held>,
    // Its version and its date. A plain list has none.
    stated: Option<Stated>,
    // The SHA-256 of its bytes, if the last object has it.
    sha256: Option<[u8; 32]>,
}

/// Where files are found, a reader of names of files, if there is one, and standard input.
#[derive(Drop)]
pub struct Sources<'t, T: Tree, N: Source + Drop, I: Source + Drop> {
    pub tree: &'t T,
    pub names: Option<N>,
    pub input: I,
}

/// The end of an audit.
#[derive(Drop)]
pub enum Audited<'a> {
    /// The audit came to an end. One that no fault stopped has a summary.
    Ended {
        done: Done<'a>,
        summary: Option<Summary>,
    },
    /// The list has names that cannot be compared with those of certificates.
    Incomparable(Incomparable),
    /// The list is refused.
    Refused(RunFault<'a>),
}

// The end of an audit by a list that was read, and what was counted.
#[derive(Drop)]
struct Counted<'a> {
    done: Done<'a>,
    summary: Option<Summary>,
}

/// Audits what the command asks for, given the bytes of the list. No audit is made by a list whose
/// certificate authorities or key IDs sshd may read otherwise. The status of an audit that came to
/// an end is 255 if it was stopped, otherwise 1 if a key is revoked, otherwise 3 if something was
/// not read, otherwise 0.
pub fn audit_run<'a, T: Tree, N: Source + Drop, I: Source + Drop, W: Screen>(
    alloc: Global,
    order: &Order<'a>,
    list: Bytes,
    given: Sources<'_, T, N, I>,
    out: &mut W,
) -> Audited<'a>
    requires texts { IsUsable order.now.texts }
    requires working { W.Sink.has_failed out.old ≡ false }
    requires names { IfSome given.names (λ names. N.has_failed names ≡ false) }
    requires input { I.has_failed given.input ≡ false }
    ensures { EndsAuditRun (T.states given.entry.tree.now) order.now list
        (readers_of N.left N.has_failed given.entry.names I.left I.has_failed given.entry.input)
        (W.Sink.taken out.old) (W.Sink.taken out.new) (W.Sink.has_failed out.new) result }
{
    let read = match read_list(alloc, order.list, list.as_slice()) {
        Ok(read) => read,
        Err(fault) => return Audited::Refused(fault),
    };
    if let Some(why) = why_incomparable(&read, list.as_slice()) {
        return Audited::Incomparable(why);
    }
    let queried = Queried {
        list: &read.revocations,
        stated: read.stated(),
        sha256: sha256_if(order.shown, list.as_slice()),
    };
    drop(list);
    let Counted { done, summary } = audit_by(alloc, order, &queried, given, out);
    Audited::Ended { done, summary }
}

/// The SHA-256 of the list, if the last object is printed, which has it.
pub fn sha256_if(shown: Shown<'_>, bytes: &[u8]) -> Option<[u8; 32]>
    ensures { result ≡ sha256_if (is_hashed shown.entry) bytes.now }
{
    match (shown.format, shown.revoked) {
        (Format::Json, true) => Some(sha256_of(bytes)),
        (Format::Json, false) | (Format::Text | Format::Colour, _) => None,
    }
}

/// Why names of a list cannot be compared with those of certificates, if so. sshd compares a
/// certificate authority as a key and a key ID as text, and an audit compares bytes.
pub fn why_incomparable(list: &ReadList, bytes: &[u8]) -> Option<Incomparable>
    ensures { HasNames list.now bytes.now result }
{
    match &list.header {
        Some(_) => first_incomparable(bytes),
        None => None,
    }
}

// Audits what the command asks for, by a list that was read.
fn audit_by<'a, T: Tree, N: Source + Drop, I: Source + Drop, W: Screen>(
    alloc: Global,
    order: &Order<'a>,
    queried: &Queried<'_>,
    given: Sources<'_, T, N, I>,
    out: &mut W,
) -> Counted<'a>
    requires texts { IsUsable order.now.texts }
    requires working { W.Sink.has_failed out.old ≡ false }
    requires names { IfSome given.names (λ names. N.has_failed names ≡ false) }
    requires input { I.has_failed given.input ≡ false }
    ensures { EndsAuditBy (T.states given.entry.tree.now) order.now queried.now
        (readers_of N.left N.has_failed given.entry.names I.left I.has_failed given.entry.input)
        (W.Sink.taken out.old) (W.Sink.taken out.new) (W.Sink.has_failed out.new)
        result.summary result.done.status result.done.fault }
{
    let mut buffer = Vec::new(alloc);
    let printer = Printer::new(&mut buffer, out);
    let judge = Judge {
        list: queried.list,
        canaries: order.canaries,
        texts: order.texts,
        shown: order.shown,
    };
    let mut round = Round::new(alloc, judge, printer, queried.stated);
    let stop = audit_all(&mut round, order, queried, given);
    let summary = summary_of(&round, queried);
    let Round {
        auditor,
        files: _files,
        text: _text,
        ..
    } = round;
    let Auditor { run, .. } = auditor;
    let Run {
        mut printer,
        line: _line,
        ..
    } = run;
    let fault = printer.finish(stop).fault;
    let Printer { out: _out, .. } = printer;
    let status = summary.counts.status(fault.is_some());
    let summary = summary_unless(&fault, summary);
    let done = Done { status, fault };
    Counted { done, summary }
}

// The counts of an audit, and the list that it queried.
fn summary_of<W: Screen>(round: &Round<'_, '_, W>, queried: &Queried<'_>) -> Summary
    ensures { result ≡ summary_of round.now.tally queried.now }
{
    Summary {
        files: round.files.counts,
        revoked_files: round.files.revoked,
        counts: round.auditor.counts,
        stated: queried.stated,
    }
}

// The summary of an audit that no fault stopped.
fn summary_unless(fault: &Option<RunFault>, summary: Summary) -> Option<Summary>
    ensures { result ≡ summary_unless fault.now summary }
{
    match fault {
        None => Some(summary),
        Some(_) => None,
    }
}

// Audits all, and prints the last object if there is one. Answers why it was stopped.
fn audit_all<'a, T: Tree, N: Source + Drop, I: Source + Drop, W: Screen>(
    round: &mut Round<'_, '_, W>,
    order: &Order<'a>,
    queried: &Queried<'_>,
    given: Sources<'_, T, N, I>,
) -> Option<RunFault<'a>>
    requires texts { IsUsable round.old.judge.texts }
    requires names { IfSome given.names (λ names. N.has_failed names ≡ false) }
    requires input { I.has_failed given.input ≡ false }
    ensures all { AuditsAll (T.states given.entry.tree.now) order.now queried.now
        (readers_of N.left N.has_failed given.entry.names I.left I.has_failed given.entry.input)
        result round.old round.new }
    ensures writer { round.new.printer.writer ≡ round.old.printer.writer }
{
    match audit_met(round, order, given) {
        Ok(true) => say_last(round, order, queried).err(),
        Ok(false) => Some(names_fault(order)),
        Err(stop) => stop_fault(stop),
    }
}

// Audits all files, first those that sshd reads. Returns false if names cannot be read to their
// end.
fn audit_met<T: Tree, N: Source + Drop, I: Source + Drop, W: Screen>(
    round: &mut Round<'_, '_, W>,
    order: &Order<'_>,
    given: Sources<'_, T, N, I>,
) -> Result<bool, Stop>
    requires names { IfSome given.names (λ names. N.has_failed names ≡ false) }
    requires input { I.has_failed given.input ≡ false }
    ensures { Took (IsMet (T.states given.entry.tree.now) order.now.search
        order.now.sought.now
        (readers_of N.left N.has_failed given.entry.names I.left I.has_failed given.entry.input)
        order.now.paths.now) result round.old round.new }
{
    audit_sought(given.tree, round, order.sought)?;
    audit_given(round, order, given)
}

// Audits the files whose names a reader gives, and then those that the command names. Returns false
// if the names cannot be read to their end.
fn audit_given<T: Tree, N: Source + Drop, I: Source + Drop, W: Screen>(
    round: &mut Round<'_, '_, W>,
    order: &Order<'_>,
    given: Sources<'_, T, N, I>,
) -> Result<bool, Stop>
    requires names { IfSome given.names (λ names. N.has_failed names ≡ false) }
    requires input { I.has_failed given.input ≡ false }
    ensures { Took (IsGiven (T.states given.entry.tree.now) order.now.search
        (readers_of N.left N.has_failed given.entry.names I.left I.has_failed given.entry.input)
        order.now.paths.now) result round.old round.new }
{
    let Sources { tree, names, input } = given;
    let Some(names) = names else {
        audit_paths(tree, round, order.search, order.paths, input)?;
        return Ok(true);
    };
    audit_both(tree, round, order, names, input)
}

// Audits the files whose names a reader gives, and then those that the command names. Returns false
// if the names cannot be read to their end.
fn audit_both<T: Tree, N: Source + Drop, I: Source + Drop, W: Screen>(
    tree: &T,
    round: &mut Round<'_, '_, W>,
    order: &Order<'_>,
    names: N,
    input: I,
) -> Result<bool, Stop>
    requires names { N.has_failed names ≡ false }
    requires input { I.has_failed input ≡ false }
    ensures { Took (IsGiven (T.states tree.now) order.now.search
        (readers_of N.left N.has_failed (Some names) I.left I.has_failed input)
        order.now.paths.now) result round.old round.new }
{
    let is_whole = audit_listed(tree, round, order.search, names)?;
    if is_whole {
        audit_paths(tree, round, order.search, order.paths, input)?;
        Ok(true)
    } else {
        Ok(false)
    }
}

// The fault of names that cannot be read to their end.
fn names_fault<'a>(order: &Order<'a>) -> RunFault<'a>
    ensures { result ≡ names_fault order.now.names_from.now }
{
    RunFault::whole(order.names_from, Cause::File(FileFault::Read))
}

// The fault of an audit that was stopped, if it is one.
fn stop_fault<'a>(stop: Stop) -> Option<RunFault<'a>>
    ensures { result ≡ stop_fault stop }
{
    match stop {
        Stop::Revoked => None,
        Stop::NoMemory => Some(RunFault::whole("memory", Cause::NoMemory)),
        Stop::Lost { count } => Some(RunFault::whole("output", Cause::Output { count })),
    }
}

// Prints the last object, if there is one.
fn say_last<'a, W: Screen>(
    round: &mut Round<'_, '_, W>,
    order: &Order<'a>,
    queried: &Queried<'_>,
) -> Result<(), RunFault<'a>>
    ensures carries { Carries (last_items (label_now round.old.judge.shown.label)
        order.now.list.now queried.now round.old.tally) result round.old.printer
        round.new.printer }
    ensures judge { round.new.judge ≡ round.old.judge }
    ensures tally { round.new.tally ≡ round.old.tally }
{
    match queried.sha256 {
        None => Ok(()),
        Some(sha256) => {
            let facts = ListFacts {
                name: order.list,
                stated: queried.stated,
                sha256,
            };
            round.auditor.say_done(round.files.counts, &facts)
        }
    }
}
