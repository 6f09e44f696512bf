//! The answer of a list for a key, and whether it is printed.

ghost use Rattle.std.specs.Prelude.{◌≡◌, IfOk, List, Option, option_map};
ghost use Rattle.text_index.specs.Explaining.{explained_by, explained_of};
ghost use Rattle.text_index.specs.NamingLines.{Register};
ghost use Rattle.krl_types.specs.Subject.{Subject as SubjectOf};
ghost use Rattle.audit_text.specs.Answer.{Answer as AnswerOf};
ghost use Rattle.audit_text.specs.Place.{place_of};
ghost use Rattle.krl_audit.specs.Audit.{AreIndexed, IsMade, JudgesAs, judged_reasons, key_kind};
ghost use Rattle.krl_audit.specs.Audit.{says};
ghost use Rattle.audit_lines.specs.Outcome.{GivesOutcome, Outcome as OutcomeOf, Unread};
ghost use Rattle.audit_lines.specs.declared.outcome.Outcome.TheVariants.{Key};

use audit_lines::{Found, Outcome, Why};
use audit_text::{Format, LineKind, Location, Verdict, say_key, say_unread};
use key_text::Marker;
use krl_entries::{Reason, Reasons, Revocations};
use krl_types::Subject;
use run_faults::KeyCause;
use span_sets::Held;
use ssh_cert::read_any;
use std::alloc::{AllocError, Global};
use text_index::{Explanation, TextIndex};

/// Which findings are printed, and how.
#[derive(Clone, Copy)]
pub struct Shown<'l> {
    /// The text before the name of a file, if there is one.
    pub label: Option<&'l str>,
    /// Print revoked keys.
    pub revoked: bool,
    /// Print lines and files that are not read.
    pub unread: bool,
    /// Print keys that are not revoked.
    pub fine: bool,
    /// The format in which they are printed.
    pub format: Format,
}

/// The list for the queries, and which findings are printed.
#[derive(Clone, Copy)]
pub struct Judge<'q> {
    /// The list.
    pub list: &'q Revocations<Held>,
    /// Keys that the list revokes on purpose: they are no findings.
    pub canaries: Option<&'q Revocations<Held>>,
    /// The texts whose lines explain the findings, if any are given.
    pub texts: Option<&'q TextIndex<'q>>,
    /// Which findings are printed.
    pub shown: Shown<'q>,
}

/// The kind of a line, and whether it is printed: then its text was made.
#[derive(Clone, Copy)]
pub struct JudgedLine {
    /// The kind of the line.
    pub kind: LineKind,
    /// Whether it is printed.
    pub said: bool,
}

impl<'q> Judge<'q> {
    /// Judges an outcome, and makes its line if it is printed.
    pub(crate) fn judge(
        &self,
        alloc: Global,
        location: Location<'_, '_>,
        outcome: &Outcome<'_>,
        line: &mut Vec<u8>,
    ) -> Result<JudgedLine, AllocError>
        ensures { (answers : SubjectOf → AnswerOf) → JudgesAs self.now answers
            → (given : OutcomeOf) → GivesOutcome outcome.now given
            → IfOk result (λ made. IsMade answers self.now.shown (place_of location.entry) given
            made.kind made.said line.new.items) }
    {
        match outcome {
            Outcome::Empty => Ok(JudgedLine {
                kind: LineKind::Empty,
                said: false,
            }),
            Outcome::Key(found) => self.judge_key(alloc, location, found, line),
            Outcome::Unread(why) => self.judge_unread(alloc, location, *why, line),
        }
    }

    // Makes the line for a line or a file that is not read.
    fn judge_unread(
        &self,
        alloc: Global,
        location: Location<'_, '_>,
        why: Why,
        line: &mut Vec<u8>,
    ) -> Result<JudgedLine, AllocError>
        ensures { (answers : SubjectOf → AnswerOf) → IfOk result (λ made. IsMade answers
            self.now.shown (place_of location.entry) (Unread why) made.kind made.said
            line.new.items) }
    {
        let said = self.shown.unread;
        if said {
            say_unread(alloc, self.shown.format, location, why, line)?;
        }
        Ok(JudgedLine {
            kind: LineKind::Unread,
            said,
        })
    }

    // Judges a key, and makes its line if it is printed.
    fn judge_key(
        &self,
        alloc: Global,
        location: Location<'_, '_>,
        found: &Found<'_>,
        line: &mut Vec<u8>,
    ) -> Result<JudgedLine, AllocError>
        ensures { (answers : SubjectOf → AnswerOf) → JudgesAs self.now answers
            → (given : OutcomeOf) → GivesOutcome (Key found.now) given
            → IfOk result (λ made. IsMade answers self.now.shown (place_of location.entry) given
            made.kind made.said line.new.items) }
    {
        let any = match read_any(found.blob.as_slice()) {
            Ok(any) => any,
            Err(fault) => return self.judge_unread(
                alloc,
                location,
                Why::Key(KeyCause::Subject(fault)),
                line,
            ),
        };
        let subject = any.subject(alloc)?;
        let reasons = self.reasons(&subject);
        let kind = key_kind(found.marker, reasons.any());
        let said = says(self.shown, kind);
        if said {
            let explanation = self.explanation(alloc, &subject, reasons)?;
            let verdict = Verdict {
                found,
                subject: &subject,
                reasons,
                explanation: &explanation,
            };
            say_key(alloc, self.shown.format, location, &verdict, line)?;
        }
        Ok(JudgedLine { kind, said })
    }

    /// The lines of the texts that give the reasons for a key, if texts are given.
    pub fn explanation(
        &self,
        alloc: Global,
        subject: &Subject<'_>,
        reasons: Reasons,
    ) -> Result<Option<Explanation<'q>>, AllocError>
        ensures { IfOk result (λ given. (texts : Option Register)
            → AreIndexed self.now.texts texts → option_map explained_of given
            ≡ option_map (λ register. explained_by register subject.now reasons) texts) }
    {
        match self.texts {
            None => Ok(None),
            Some(texts) => Ok(Some(texts.explain(alloc, subject, reasons)?)),
        }
    }

    /// Why the list revokes a key, unless it is a canary.
    pub fn reasons(&self, subject: &Subject<'_>) -> Reasons
        ensures { result ≡ judged_reasons self.now subject.now }
    {
        match self.canaries {
            Some(canaries) if canaries.reasons(subject).has(Reason::Key) => Reasons { bits: 0 },
            Some(_) | None => self.list.reasons(subject),
        }
    }
}

// The kind of a key, by its marker and whether there is a reason.
fn key_kind(marker: Option<Marker>, revoked: bool) -> LineKind
    ensures { result ≡ key_kind marker revoked }
{
    match (marker, revoked) {
        (Some(Marker::Revoked), _) => LineKind::Distrusted,
        (_, true) => LineKind::Revoked,
        (_, false) => LineKind::Fine,
    }
}

/// Returns true if a line of this kind is printed.
pub fn says(shown: Shown<'_>, kind: LineKind) -> bool
    ensures { result ≡ says shown.entry kind }
{
    match kind {
        LineKind::Empty | LineKind::Distrusted => false,
        LineKind::Fine => shown.fine,
        LineKind::Revoked => shown.revoked,
        LineKind::Unread => shown.unread,
    }
}
