//! Queries of a list for the keys of files. After the list's front, only the answers are stored.

ghost use Rattle.std.specs.Prelude.{◌≡◌, ◌*◌, ◌≤◌, ℕ, IfSome, List, None, Option, Result, false};
ghost use Rattle.run_faults.specs.Keys.{Named as NamedOf};
ghost use Rattle.run_faults.specs.Sizes.{files_size};
ghost use Rattle.krl_types.specs.Entry.{Entry as EntryOf};
ghost use Rattle.krl_queries.specs.Questions.{Asks};
ghost use Rattle.krl_entries.specs.Revocations.{IsOrderly, nothing};
ghost use Rattle.krl_core.specs.Reading.{HasReadOf, IsResultOf};
ghost use Rattle.krl_types.specs.declared.krl_fault.KrlFault.{KrlFault as FaultOf};
ghost use Rattle.run_output.specs.Carries.{Carries};
ghost use Rattle.run_output.specs.Expected.{AllExpected};
ghost use Rattle.run_output.specs.Run.{Answering as AnsweringOf, files_items};
ghost use Rattle.krl_runs.specs.Query.{AnswersAbout, HasEntries, asked_run_of};
ghost use Rattle.krl_runs.specs.Questions.{AsksAtMost, IsFewFor};

use crate::query::Query;
use crate::questions::ask_about;
use byte_streams::{Sink, Source};
use krl_core::{Reading, Walk};
use krl_queries::Questions;
use run_faults::{Cause, Named, RunFault, cause_of};
use run_output::{Run, print_files};
use span_sets::Held;

// At most this number of bytes of a list is stored.
const FRONT: u64 = 262_144;

/// Queries a list for each key of each file, and prints for each whether it is revoked. The list's
/// front is stored. If the list is longer, it is queried for all keys together while it is
/// streamed.
pub(crate) fn ask_streamed<'a, R: Source + Drop, W: Sink>(
    run: &mut Run<W>,
    krl_name: &'a str,
    krl: R,
    files: &'a [Named<'a>],
) -> (Result<(), RunFault<'a>>, R)
    requires { R.has_failed krl ≡ false }
    ensures { (outcome : Result (List EntryOf) FaultOf)
        × IsResultOf HasEntries (R.left krl) outcome (R.has_failed result.1) (R.left result.1)
        × Carries (asked_run_of krl_name.now outcome files.now) result.0
        run.old.printer run.new.printer }
{
    let mut front: Reading<Held, R> = Reading::new(run.alloc, krl);
    match front.read_to(front_size(files)) {
        Ok(true) => ask_rest(run, krl_name, front, files),
        Ok(false) => {
            let (_header, list, reader) = front.done();
            (print_files(run, &Query::Stored(&list), files), reader)
        }
        Err(fault) => (
            Err(RunFault::whole(krl_name, cause_of(fault))),
            front.into_reader(),
        ),
    }
}

// The number of bytes of a list that are stored: at most the size of the files, so that a query for
// few keys takes little memory. It is cheaper to store a short list than queries for many keys.
fn front_size(files: &[Named<'_>]) -> u64
    ensures { result ≤ 262144 }
{
    let mut size: u64 = 0;
    for file in files {
        if let Ok(content) = &file.content {
            size = size.saturating_add(content.as_slice().len() as u64);
        }
    }
    size.min(FRONT)
}

// Queries for the keys of the files, and streams the rest of the list. If an allocation fails
// before all queries are stored, the list is streamed all the same: its fault is reported first.
fn ask_rest<'a, R: Source + Drop, W: Sink>(
    run: &mut Run<W>,
    krl_name: &'a str,
    front: Reading<Held, R>,
    files: &'a [Named<'a>],
) -> (Result<(), RunFault<'a>>, R)
    requires working { front.fault ≡ None }
    requires short { front.pull.taken ≤ 262144 }
    ensures { (before : Option (List ℕ)) → HasReadOf before front
        → (outcome : Result (List EntryOf) FaultOf)
        × IsResultOf HasEntries before outcome (R.has_failed result.1) (R.left result.1)
        × Carries (asked_run_of krl_name.now outcome files.now) result.0
        run.old.printer run.new.printer }
{
    let mut questions: Questions<Held> = Questions::new(run.alloc);
    match ask_about(run.alloc, &mut questions, files) {
        Ok(()) => match front.continue_over(run.alloc, questions) {
            Ok(walk) => stream(run, krl_name, walk, files),
            Err(reader) => (Err(RunFault::whole(krl_name, Cause::NoMemory)), reader),
        },
        Err(_) => {
            let none: Questions<Held> = Questions::new(run.alloc);
            match front.continue_over(run.alloc, none) {
                Ok(walk) => stream_unasked(run, krl_name, walk),
                Err(reader) => (Err(RunFault::whole(krl_name, Cause::NoMemory)), reader),
            }
        }
    }
}

// Streams the rest of a list, with queries for all keys of the files, and prints the answer for
// each.
fn stream<'a, R: Source + Drop, W: Sink>(
    run: &mut Run<W>,
    krl_name: &'a str,
    walk: Walk<Questions<Held>, R>,
    files: &'a [Named<'a>],
) -> (Result<(), RunFault<'a>>, R)
    requires working { walk.fault ≡ None }
    requires asked { IfSome walk.stored.scope (λ topics. AllExpected (Asks topics) files.now) }
    requires orderly { IfSome walk.stored.scope IsOrderly }
    requires within { IfSome walk.stored.scope
        (AsksAtMost (3 * files_size files.now) nothing) }
    ensures { (before : Option (List ℕ)) → HasReadOf before walk
        → (outcome : Result (List EntryOf) FaultOf)
        × IsResultOf HasEntries before outcome (R.has_failed result.1) (R.left result.1)
        × Carries (asked_run_of krl_name.now outcome files.now) result.0
        run.old.printer run.new.printer }
{
    let (read, reader) = walk.read_on();
    match read {
        Ok((header, questions)) => {
            let _header = header;
            let _found = questions.found();
            (print_streamed(run, &questions, files), reader)
        }
        Err(fault) => (Err(RunFault::whole(krl_name, cause_of(fault))), reader),
    }
}

// Prints the answer for each key of the files. Few entries of the list were stored for that.
fn print_streamed<'a, W: Sink>(
    run: &mut Run<W>,
    questions: &Questions<Held>,
    files: &'a [Named<'a>],
) -> Result<(), RunFault<'a>>
    requires asked { AllExpected (Asks questions.now.topics) files.now }
    requires few { IsFewFor (files_size files.now) questions.now.found }
    ensures { (answering : AnsweringOf)
        → AnswersAbout (Asks questions.now.topics) questions.now.found answering
        → Carries (files_items answering files.now) result run.old.printer run.new.printer }
{
    print_files(run, &Query::Streamed(questions), files)
}

// Streams the rest of a list without queries, because an allocation failed.
fn stream_unasked<'a, R: Source + Drop, W: Sink>(
    run: &mut Run<W>,
    krl_name: &'a str,
    walk: Walk<Questions<Held>, R>,
) -> (Result<(), RunFault<'a>>, R)
    requires { walk.fault ≡ None }
    ensures { (files : List NamedOf) (before : Option (List ℕ)) → HasReadOf before walk
        → (outcome : Result (List EntryOf) FaultOf)
        × IsResultOf HasEntries before outcome (R.has_failed result.1) (R.left result.1)
        × Carries (asked_run_of krl_name.now outcome files) result.0
        run.old.printer run.new.printer }
{
    let (read, reader) = walk.read_on();
    let cause = match read {
        Ok(_) => Cause::NoMemory,
        Err(fault) => cause_of(fault),
    };
    (Err(RunFault::whole(krl_name, cause)), reader)
}
