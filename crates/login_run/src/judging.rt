//! The answer about a line of a log, and whether it is printed.

ghost use Rattle.std.specs.Prelude.{◌≡◌, IfOk};
ghost use Rattle.krl_audit.specs.Audit.{JudgesAs, revoked_or_fine};
ghost use Rattle.krl_types.specs.Subject.{Subject as SubjectOf};
ghost use Rattle.audit_text.specs.Answer.{Answer as AnswerOf};
ghost use Rattle.login_lines.specs.Logins.{reported_of};
ghost use Rattle.login_run.specs.Finding.{IsMade, Lacks, Reports, finding_of, place};
ghost use Rattle.login_text.specs.Outcome.{IsOutcome, Outcome as OutcomeOf};

use audit_lines::{Refusal, Why};
use audit_text::{LineKind, Location, say_unread};
use krl_audit::{Judge, JudgedLine, says};
use login_lines::Login;
use login_text::{
    LoginVerdict, LoginWhy, Outcome, read_outcome, say_login, say_unread_login, subject_of,
};
use std::alloc::{AllocError, Global};

/// Why a line or a log is not read.
#[derive(Clone, Copy)]
pub enum NotRead {
    /// A reason that only logs have.
    Log(LoginWhy),
    /// The file cannot be opened or read.
    File(Refusal),
}

/// A line of a log: the name of the log, and the number of the line, from 1 on; 0 represents the
/// whole log.
#[derive(Clone, Copy)]
pub(crate) struct LogLine<'a> {
    pub(crate) name: &'a str,
    pub(crate) number: u64,
}

/// Judges a line, and makes its text if it is printed.
pub(crate) fn judge_line(
    alloc: Global,
    judge: &Judge<'_>,
    at: LogLine<'_>,
    line: &[u8],
    text: &mut Vec<u8>,
) -> Result<JudgedLine, AllocError>
    ensures { (outcome : OutcomeOf) → IsOutcome line.now outcome → (answers : SubjectOf → AnswerOf)
        → JudgesAs judge.now answers → IfOk result (λ made. IsMade answers judge.now.shown
        (place at.entry.name.now at.entry.number (finding_of outcome)) made.kind
        made.said text.new.items) }
{
    match &read_outcome(alloc, line)? {
        Outcome::Other => Ok(JudgedLine {
            kind: LineKind::Empty,
            said: false,
        }),
        Outcome::Login { login, id } => {
            let verdict = (login, id.as_slice());
            judge_login(alloc, judge, at, verdict, text)
        }
        Outcome::Unread(fault) => {
            judge_unread(alloc, judge, at, NotRead::Log(LoginWhy::Line(*fault)), text)
        }
    }
}

// Judges a login with its decoded key ID, and makes its text if it is printed.
fn judge_login(
    alloc: Global,
    judge: &Judge<'_>,
    at: LogLine<'_>,
    found: (&Login<'_>, &[u8]),
    text: &mut Vec<u8>,
) -> Result<JudgedLine, AllocError>
    ensures { (answers : SubjectOf → AnswerOf) → JudgesAs judge.now answers
        → IfOk result (λ made. IsMade answers judge.now.shown
        (place at.entry.name.now at.entry.number
        (Reports (reported_of found.entry.0.now) found.entry.1.now)) made.kind made.said
        text.new.items) }
{
    let (login, id) = found;
    let location = Location::line(at.name, at.number);
    let subject = subject_of(alloc, login, id)?;
    let reasons = judge.reasons(&subject);
    let kind = revoked_or_fine(reasons.any());
    let said = says(judge.shown, kind);
    if said {
        let explanation = judge.explanation(alloc, &subject, reasons)?;
        let verdict = LoginVerdict {
            login,
            id,
            subject: &subject,
            reasons,
            explanation: &explanation,
        };
        say_login(alloc, judge.shown.format, location, &verdict, text)?;
    }
    Ok(JudgedLine { kind, said })
}

// The kind of a login, by whether there is a reason.
fn revoked_or_fine(revoked: bool) -> LineKind
    ensures { result ≡ revoked_or_fine revoked }
{
    if revoked {
        LineKind::Revoked
    } else {
        LineKind::Fine
    }
}

/// Makes the text for a line or a log that is not read, if it is printed.
pub(crate) fn judge_unread(
    alloc: Global,
    judge: &Judge<'_>,
    at: LogLine<'_>,
    why: NotRead,
    text: &mut Vec<u8>,
) -> Result<JudgedLine, AllocError>
    ensures { (answers : SubjectOf → AnswerOf) → IfOk result (λ made. IsMade answers
        judge.now.shown (place at.entry.name.now at.entry.number (Lacks why))
        made.kind made.said text.new.items) }
{
    let said = judge.shown.unread;
    if said {
        let form = judge.shown.format;
        let location = Location::line(at.name, at.number);
        match why {
            NotRead::Log(why) => say_unread_login(form, location, why, text)?,
            NotRead::File(refusal) => say_unread(alloc, form, location, Why::File(refusal), text)?,
        }
    }
    Ok(JudgedLine {
        kind: LineKind::Unread,
        said,
    })
}
