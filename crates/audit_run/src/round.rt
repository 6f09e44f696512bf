//! The auditor of files, and what was met so far.

ghost use Rattle.std.specs.Prelude.{◌≡◌, ◌&&◌, ◌∷◌, [], IfSome, None, not, true, false};
ghost use Rattle.std.specs.Result.{result_err};
ghost use Rattle.krl_audit.specs.Audit.{content_of, name_by, own_name};
ghost use Rattle.audit_run.specs.Visits.{Audited, Meets, Same, Skipped, at_start, is_seen};
ghost use Rattle.audit_run.specs.Visits.{is_told, stop_for};

use crate::files::{Files, Key, Since, Skip};
use crate::sending::{audit_and_send, say_same_if};
use crate::stop::Stop;
use crate::summary::Summary;
use audit_lines::Refusal;
use byte_streams::Sink;
use krl_audit::{Auditor, FileName, Judge, Shown};
use krl_format::Stated;
use run_faults::{Cause, RunFault};
use run_output::Printer;
use std::alloc::{AllocError, Global};
use std::marker::Model;
use std::mem;

/// Where findings are printed, and how far the audit is may be shown.
pub trait Screen: Sink {
    /// Shows how far the audit is, beside what was written.
    fn show(&mut self, summary: &Summary)
        ensures taken { Self.Sink.taken self.new ≡ Self.Sink.taken self.old }
        ensures failed { Self.Sink.has_failed self.new ≡ Self.Sink.has_failed self.old };
}

/// The auditor of files, and what was met so far.
#[derive(Drop)]
pub(crate) struct Round<'q, 'w, W: Screen> {
    pub(crate) auditor: Auditor<'q, 'w, W>,
    pub(crate) files: Files,
    pub(crate) since: Since,
    /// The version and the date of the list. A plain list has none.
    pub(crate) stated: Option<Stated>,
    /// The buffer for the bytes of a file.
    pub(crate) text: Vec<u8>,
}

impl<'q, 'w, W: Screen> Model for Round<'q, 'w, W> {
    ghost use Rattle.audit_run.specs.Visits.{State};

    ghost Value = { State };

    ghost view = { λ round. record {
      judge = round.auditor.judge;
      printer = round.auditor.run.printer;
      tally = record { counts = round.auditor.counts; files = round.files };
      since = round.since;
    } };
}

impl<'q, 'w, W: Screen> Round<'q, 'w, W> {
    /// A round in which nothing was met yet.
    pub(crate) fn new(
        alloc: Global,
        judge: Judge<'q>,
        printer: Printer<'w, W>,
        stated: Option<Stated>,
    ) -> Self
        ensures { result ≡ at_start judge.entry printer.entry }
    {
        Round {
            auditor: Auditor::new(alloc, judge, printer),
            files: Files::new(alloc),
            since: Since::NOTHING,
            stated,
            text: Vec::new(alloc),
        }
    }

    /// The counts so far.
    pub(crate) fn summary(&self) -> Summary
        ensures files { result.files ≡ self.now.tally.files.counts }
        ensures revoked { result.revoked_files ≡ self.now.tally.files.revoked }
        ensures counts { result.counts ≡ self.now.tally.counts }
    {
        Summary {
            files: self.files.counts,
            revoked_files: self.files.revoked,
            counts: self.auditor.counts,
            stated: self.stated,
        }
    }

    /// Shows the counts so far.
    pub(crate) fn show(&mut self)
        ensures { self.new ≡ self.old }
    {
        let summary = self.summary();
        self.auditor.run.printer.out.show(&summary);
    }

    /// The buffer for the bytes of a file, which is empty.
    pub(crate) fn take_text(&mut self) -> Vec<u8>
        ensures empty { result.items ≡ [] }
        ensures kept { self.new ≡ self.old }
    {
        let mut text = mem::replace(&mut self.text, Vec::new(self.auditor.run.alloc));
        text.clear();
        text
    }

    /// Audits the bytes of a file whose lines are read by its own name, or says why there are none,
    /// and counts it.
    pub(crate) fn audit(&mut self, name: &str, content: Result<&[u8], Refusal>) -> Result<(), Stop>
        ensures { Meets (Audited None (own_name name.now) (content_of content.entry) ∷ [])
            (result_err result) self.old self.new }
    {
        let name = FileName {
            shown: name,
            read_as: Some(name),
        };
        self.audit_as(None, name, content)
    }

    /// Audits the bytes of a file, or says why there are none, and counts it. One with a key was
    /// not audited before.
    pub(crate) fn audit_as(
        &mut self,
        key: Option<Key>,
        name: FileName<'_>,
        content: Result<&[u8], Refusal>,
    ) -> Result<(), Stop>
        requires { IfSome key (λ new. is_seen self.old.tally.files new ≡ false) }
        ensures { Meets (Audited key (name_by name.entry) (content_of content.entry) ∷ [])
            (result_err result) self.old self.new }
    {
        self.files.keep(key)?;
        let before = self.auditor.counts.revoked;
        if let Err(fault) = audit_and_send(&mut self.auditor, name, content) {
            return Err(stop_by(&fault));
        }
        let revoked = self.auditor.counts.revoked > before;
        self.files.count(revoked);
        self.since.gave = true;
        if ends_at(self.auditor.judge.shown, revoked) {
            return Err(Stop::Revoked);
        }
        self.show();
        Ok(())
    }

    /// Counts a name of a file that was audited before, and says so of the first ones.
    pub(crate) fn say_same(&mut self, key: Key, name: &str) -> Result<(), Stop>
        requires { is_seen self.old.tally.files key ≡ true }
        ensures { Meets (Same (is_told self.old.tally.files key) key name.now ∷ [])
            (result_err result) self.old self.new }
    {
        let is_told = self.files.is_told(key);
        self.files.count_same(key)?;
        if let Err(fault) = say_same_if(&mut self.auditor, name, is_told) {
            return Err(stop_by(&fault));
        }
        self.since.gave = true;
        self.show();
        Ok(())
    }

    /// Counts names that are passed over for this reason.
    pub(crate) fn skip(&mut self, why: Skip, count: u64)
        ensures { Meets (Skipped why count ∷ []) None self.old self.new }
    {
        self.files.count_skipped(why, count);
        self.since.passed |= count > 0;
    }
}

// The output failed, or memory ran out within a file.
fn stop_by(fault: &RunFault<'_>) -> Stop
    ensures { result ≡ stop_for fault.now.cause }
{
    match fault.cause {
        Cause::Output { count } => Stop::Lost { count },
        _ => Stop::NoMemory,
    }
}

// Whether the audit ends at a file in which a key is revoked or not: no finding is asked for.
fn ends_at(shown: Shown<'_>, revoked: bool) -> bool
    ensures { result ≡ revoked && not shown.entry.revoked }
{
    revoked && !shown.revoked
}
