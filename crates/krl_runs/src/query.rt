//! Queries of a list for the keys of files (ssh-keygen(1), KEY REVOCATION LISTS).

ghost use Rattle.std.specs.Prelude.{◌≡◌, IfOk, List, Ok, Result, false};
ghost use Rattle.krl_entries.specs.Reasons.{revokes};
ghost use Rattle.krl_types.specs.declared.krl_fault.KrlFault.{KrlFault as FaultOf};
ghost use Rattle.run_output.specs.Carries.{Carries};
ghost use Rattle.krl_runs.specs.Contents.{Known as KnownOf, known_of};
ghost use Rattle.run_output.specs.Done.{Ends};
ghost use Rattle.krl_runs.specs.Query.{AnswersAbout, IsFor, IsListRead, IsRun, comment_part};
ghost use Rattle.krl_runs.specs.Query.{entries_for, query_line, query_run_of, verdict};
ghost use Rattle.run_output.specs.Run.{Item as ItemOf};

use crate::contents::print_contents;
use crate::streaming::ask_streamed;
use byte_streams::{Sink, Source};
use krl_core::{Header, Revocations, read_krl};
use krl_queries::Questions;
use krl_types::Subject;
use line_pieces::{Escaped, Printed, Words, put};
use run_faults::{FileFault, FileKey, Named, RunFault, cause_of};
use run_output::{Answer, Answers, Done, Printer, Run, print_files};
use span_sets::Held;
use ssh_cert::AnyKey;
use ssh_wire::Bytes;
use std::alloc::{AllocError, Global};

/// Answers for each key whether a list revokes it.
#[derive(Drop)]
pub(crate) enum Query<'q> {
    /// By all that the list revokes.
    Stored(&'q Revocations<Held>),
    /// By what was found while the list was streamed, for the keys that were asked about.
    Streamed(&'q Questions<Held>),
}

impl<'q> Query<'q> {
    // Whether a key or a certificate is revoked.
    fn revokes(&self, subject: &Subject) -> bool
        requires { IsFor self.now subject.now }
        ensures { result ≡ revokes (entries_for self.now) subject.now }
    {
        match self {
            Query::Stored(list) => list.query(subject),
            Query::Streamed(questions) => questions.answer(subject),
        }
    }
}

impl<'q> Answers for Query<'q> {
    ghost answers_as = { λ query answering.
        AnswersAbout (IsFor query) (entries_for query) answering };

    ghost expects = { IsFor };

    fn answer(
        &self,
        alloc: Global,
        key: &FileKey,
        any: &AnyKey,
    ) -> Result<Option<Answer>, AllocError> {
        let revoked = self.revokes(&any.subject(alloc)?);
        let text = query_line(alloc, key.name, key.comment(), revoked)?;
        Ok(Some(Answer { text, revoked }))
    }

    fn unanswered(&self) -> FileFault {
        FileFault::NoKeys
    }
}

// The line of a key, with its line feed.
fn query_line(alloc: Global, name: &str, comment: &[u8], revoked: bool) -> Result<Bytes, AllocError>
    ensures { IfOk result (λ text. text ≡ query_line name.now comment.now revoked) }
{
    let mut text = Vec::new(alloc);
    put!(&mut text; Escaped(name.as_bytes()), Comment(comment), Words(verdict(revoked)), b"\n")?;
    Ok(Bytes::from_vec(text))
}

// The printed word for whether a key is revoked.
fn verdict(revoked: bool) -> &'static [u8]
    ensures { result.now ≡ verdict revoked }
{
    if revoked { b": REVOKED" } else { b": ok" }
}

// A comment in parentheses, escaped, if there is one.
#[derive(Clone, Copy)]
struct Comment<'a>(&'a [u8]);

impl<'a> Printed for Comment<'a> {
    ghost text = { λ comment. comment_part comment.0.now };

    fn push_to(&self, out: &mut Vec<u8>) -> Result<(), AllocError> {
        if self.0.is_empty() {
            return Ok(());
        }
        put!(out; b" (", Escaped(self.0), b")")
    }
}

/// Reads a list, prints its contents if `dump` is true, queries it for each key of each file, and
/// prints a line for each that says whether it is revoked (ssh-keygen(1), KEY REVOCATION LISTS).
/// Returns the list's reader too. Reader and writer must not have failed before. The status is 0 if
/// no key is revoked, 1 if one is, and 255 if a fault stops the run.
pub fn query_run<'a, R: Source + Drop, W: Sink>(
    alloc: Global,
    krl_name: &'a str,
    krl: R,
    dump: bool,
    files: &'a [Named<'a>],
    out: &mut W,
) -> (Done<'a>, R)
    requires fresh { R.has_failed krl ≡ false }
    requires working { W.has_failed out.old ≡ false }
    ensures { (items : List ItemOf)
        × IsRun krl_name.now files.now (R.left krl) dump (R.has_failed result.1) (R.left result.1)
        items
        × Ends items (W.taken out.old) (W.taken out.new) (W.has_failed out.new)
        result.0.status result.0.fault }
{
    let mut buffer = Vec::new(alloc);
    let printer = Printer::new(&mut buffer, out);
    let line = Vec::new(alloc);
    let mut run = Run {
        alloc,
        printer,
        line,
    };
    let (asked, reader) = ask(&mut run, krl_name, krl, dump, files);
    let Run {
        mut printer,
        line: _line,
        ..
    } = run;
    let done = printer.finish(asked.err());
    let Printer { out: _out, .. } = printer;
    (done, reader)
}

// Reads a list, prints its contents if `dump` is true, and prints for each key of each file
// whether it is revoked.
fn ask<'a, R: Source + Drop, W: Sink>(
    run: &mut Run<W>,
    krl_name: &'a str,
    krl: R,
    dump: bool,
    files: &'a [Named<'a>],
) -> (Result<(), RunFault<'a>>, R)
    requires { R.has_failed krl ≡ false }
    ensures { (items : List ItemOf)
        × IsRun krl_name.now files.now (R.left krl) dump (R.has_failed result.1) (R.left result.1)
        items
        × Carries items result.0 run.old.printer run.new.printer }
{
    if dump {
        return ask_stored(run, krl_name, krl, files);
    }
    ask_streamed(run, krl_name, krl, files)
}

// Reads a list, prints its contents, and queries it for each key of each file.
fn ask_stored<'a, R: Source + Drop, W: Sink>(
    run: &mut Run<W>,
    krl_name: &'a str,
    krl: R,
    files: &'a [Named<'a>],
) -> (Result<(), RunFault<'a>>, R)
    requires { R.has_failed krl ≡ false }
    ensures { (outcome : Result KnownOf FaultOf)
        × IsListRead (R.left krl) outcome (R.has_failed result.1) (R.left result.1)
        × Carries (query_run_of krl_name.now outcome files.now) result.0
        run.old.printer run.new.printer }
{
    let (read, reader) = read_krl::<Held, R>(run.alloc, krl);
    match read {
        Ok((header, list)) => (print_list(run, krl_name, &header, &list, files), reader),
        Err(fault) => (Err(RunFault::whole(krl_name, cause_of(fault))), reader),
    }
}

// Prints the contents of a list, and queries it for each key of each file.
fn print_list<'a, W: Sink>(
    run: &mut Run<W>,
    krl_name: &'a str,
    header: &Header,
    list: &Revocations<Held>,
    files: &'a [Named<'a>],
) -> Result<(), RunFault<'a>>
    ensures { Carries (query_run_of krl_name.now (Ok (known_of header.now list.now)) files.now)
        result run.old.printer run.new.printer }
{
    print_contents(run, krl_name, header, list)?;
    print_files(run, &Query::Stored(list), files)
}
