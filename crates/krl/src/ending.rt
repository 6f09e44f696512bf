//! How a run ends: with a status, and a line that says why it stopped.

ghost use Rattle.std.specs.Prelude.{◌≡◌, IfOk, false};
ghost use Rattle.run_faults.specs.RunFault.{line_part};
ghost use Rattle.run_faults.specs.Causes.{cause_words};
ghost use Rattle.krl.specs.Ending.{audit_status, fault_line, is_looked_at, words_line};
ghost use Rattle.krl.specs.Logins.{logins_status};

use crate::Krl;
use crate::loading::{bytes_of, why_unopened};
use audit_lines::refusal_words;
use audit_run::{Audited, Summary, push_summary};
use krl_core::KrlFault;
use krl_openssh::Incomparable;
use line_pieces::{Printed, Visible, Words, put};
use login_run::{LoginSummary, LoginsEnd, push_login_summary, push_sha1s};
use program_edge::{end, print_line, stop};
use run_faults::{Cause, FileFault, KeyCause, RunFault, cause_words};
use run_output::FAILED;
use std::alloc::{AllocError, Global};
use std::fs;
use text_entries::has_word_at;
use text_run::{MakeCause, MakeFault, Text, fault_line as make_fault_line};

// Why no audit is made by a list whose authorities or key IDs OpenSSH compares otherwise.
const OTHER_AUTHORITY: &[u8] = b"a certificate authority in it is no key in its one spelling, and \
sshd may read it otherwise";

const OTHER_KEY_ID: &[u8] = b"a key ID in it has a zero byte, and sshd may read it otherwise";

// The number of a line, if there is one.
#[derive(Clone, Copy)]
struct Line(Option<u64>);

impl Printed for Line {
    ghost text = { λ line. line_part line.0 };

    fn push_to(&self, out: &mut Vec<u8>) -> Result<(), AllocError> {
        match self.0 {
            None => Ok(()),
            Some(number) => put!(out; b"line ", number, b": "),
        }
    }
}

/// Ends a run that cannot do what it was asked about this file, and says why.
pub fn fail_in_words(rt: &HostRuntime, name: &str, why: &[u8]) -> u8
    ensures { result ≡ 255 }
{
    if let Ok(line) = words_line(rt.alloc(), name, why) {
        print_line(rt, line.as_slice());
    }
    FAILED
}

/// Ends an audit by the list of this name. Where none was made by it, the line says why.
pub fn end_audit(rt: &HostRuntime, list: &str, audited: Audited) -> u8
    ensures { result ≡ audit_status audited.entry }
{
    match audited {
        Audited::Ended { done, summary } => {
            if let Some(summary) = summary {
                print_summary(rt, &summary);
            }
            end(rt, &Krl, &done)
        }
        Audited::Incomparable(why) => fail_in_words(rt, list, words_of(why)),
        Audited::Refused(fault) => stop(rt, &Krl, &fault),
    }
}

/// Ends a search for logins by the list of this name. Where none was made by it, the line says why.
/// A list with entries that no log can be compared with has a line about these.
pub fn end_logins(rt: &HostRuntime, list: &str, ended: LoginsEnd) -> u8
    ensures { result ≡ logins_status ended.entry }
{
    match ended {
        LoginsEnd::Ended { done, summary } => {
            if let Some(summary) = summary {
                print_login_summary(rt, list, &summary);
            }
            end(rt, &Krl, &done)
        }
        LoginsEnd::Incomparable(why) => fail_in_words(rt, list, words_of(why)),
        LoginsEnd::Refused(fault) => stop(rt, &Krl, &fault),
    }
}

// Why no audit is made by such a list.
fn words_of(why: Incomparable) -> &'static [u8] {
    match why {
        Incomparable::Authority => OTHER_AUTHORITY,
        Incomparable::KeyId => OTHER_KEY_ID,
    }
}

/// Ends a run that made no list of these texts, and says why.
pub fn fail_to_make<'a>(rt: &HostRuntime, fault: &MakeFault<'_>, texts: &'a [Text<'a>]) -> u8
    ensures { result ≡ 255 }
{
    if let MakeCause::Run(cause) = fault.cause {
        return stop(rt, &Krl, &RunFault::whole(fault.name, cause));
    }
    if let Ok(line) = make_fault_line(rt.alloc(), fault, texts) {
        print_line(rt, line.as_slice());
    }
    FAILED
}

// Prints the last line of an audit on standard error. Where there is no memory for the line,
// nothing is printed.
fn print_summary(rt: &HostRuntime, summary: &Summary) {
    let mut line = Vec::new(rt.alloc());
    if push_summary(rt.alloc(), summary, &mut line).is_ok() {
        print_line(rt, line.as_slice());
    }
}

// Prints the last lines of a search for logins on standard error. Where there is no memory for a
// line, it is not printed.
fn print_login_summary(rt: &HostRuntime, list: &str, summary: &LoginSummary) {
    let mut line = Vec::new(rt.alloc());
    if summary.sha1s > 0 && push_sha1s(summary.sha1s, &mut line).is_ok() {
        let _ = fail_in_words(rt, list, line.as_slice());
    }
    line.clear();
    if push_login_summary(rt.alloc(), summary, &mut line).is_ok() {
        print_line(rt, line.as_slice());
    }
}

// The line about a file, in words.
fn words_line(alloc: Global, name: &str, why: &[u8]) -> Result<Vec<u8>, AllocError>
    ensures { IfOk result (λ text. text.items ≡ words_line name.now why.now) }
{
    let mut text = Vec::new(alloc);
    put!(&mut text; b"krl: ", Visible(name.as_bytes(), false), b": ", Words(why), b"\n")?;
    Ok(text)
}

/// Why the run stopped, in words. A file that cannot be opened or read, or a line of it that is no
/// key, is looked at once more: the words are the system's reason, or say what the file is.
pub fn reason_of(rt: &HostRuntime, fault: &RunFault) -> &'static [u8]
    ensures { is_looked_at fault.now.cause ≡ false
        → result.now ≡ cause_words fault.now.cause }
{
    match fault.cause {
        Cause::File(FileFault::Open) => refusal_words(why_unopened(rt, fault.name)),
        Cause::File(FileFault::Read) | Cause::Krl(KrlFault::Read) if is_directory(rt, fault.name) =>
            { b"it is a directory" }
        Cause::Key(KeyCause::Line(_)) if is_text(rt, fault) => {
            b"this is a text: make a list of it by krl make"
        }
        cause => cause_words(cause),
    }
}

// Whether the file is a directory by now.
fn is_directory(rt: &HostRuntime, name: &str) -> bool {
    fs::metadata(rt, name).is_ok_and(|found| found.is_dir())
}

// Whether the line with the fault begins with a word of texts, as `krl make` reads them. Only a
// regular file is read once more.
fn is_text(rt: &HostRuntime, fault: &RunFault) -> bool {
    if !fs::metadata(rt, fault.name).is_ok_and(|found| found.is_file()) {
        return false;
    }
    match (fault.line, bytes_of(rt, fault.name)) {
        (Some(line), Ok(bytes)) => has_word_at(bytes.as_slice(), line),
        _ => false,
    }
}

/// The line about a fault, with this reason. The name is shown as in findings.
pub fn fault_line(alloc: Global, reason: &[u8], fault: &RunFault) -> Result<Vec<u8>, AllocError>
    ensures { IfOk result (λ text. text.items ≡ fault_line reason.now fault.now) }
{
    let cause = fault.cause.to_string(alloc)?;
    let mut text = Vec::new(alloc);
    put!(&mut text; b"krl: ", Visible(fault.name.as_bytes(), false), b": ", Line(fault.line),
        Words(reason), b" [", Words(cause.as_bytes()), b"]\n")?;
    Ok(text)
}
