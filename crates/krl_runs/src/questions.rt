//! Queries for the keys of files.

ghost use Rattle.std.specs.Prelude.{◌≡◌, ◌≢◌, ◌*◌, IfOk, OnOk, false};
ghost use Rattle.std.specs.Result.{IsErr};
ghost use Rattle.ssh_cert.specs.SubjectReading.{subject_of};
ghost use Rattle.run_faults.specs.Keys.{keys_of};
ghost use Rattle.run_faults.specs.Sizes.{blob_room, file_size, files_size};
ghost use Rattle.run_faults.specs.declared.cause.Cause.TheVariants.{NoMemory};
ghost use Rattle.krl_queries.specs.Questions.{Asks, AsksMore};
ghost use Rattle.krl_entries.specs.Revocations.{IsOrderly};
ghost use Rattle.run_output.specs.Expected.{AllExpected, AreExpected};
ghost use Rattle.krl_runs.specs.Questions.{AsksAtMost};

use krl_queries::Questions;
use run_faults::{Cause, FileKey, Named, keys_of};
use span_sets::Held;
use std::alloc::{AllocError, Global};

/// Queries a list for each key of each file, up to the file's first fault.
/// Fails only if an allocation fails.
pub fn ask_about<'a>(
    alloc: Global,
    questions: &mut Questions<Held>,
    files: &'a [Named<'a>],
) -> Result<(), AllocError>
    requires { IsOrderly questions.old.topics }
    ensures found { questions.new.found ≡ questions.old.found }
    ensures orderly { IsOrderly questions.new.topics }
    ensures asked { OnOk result (AllExpected (Asks questions.new.topics) files.now) }
    ensures within { AsksAtMost (3 * files_size files.now) questions.old.topics
        questions.new.topics }
{
    for file in files {
        ask_file(alloc, questions, file)?;
    }
    Ok(())
}

// Queries for each key of a file, up to its first fault.
fn ask_file<'a>(
    alloc: Global,
    questions: &mut Questions<Held>,
    file: &'a Named<'a>,
) -> Result<(), AllocError>
    requires { IsOrderly questions.old.topics }
    ensures found { questions.new.found ≡ questions.old.found }
    ensures orderly { IsOrderly questions.new.topics }
    ensures more { OnOk result (AsksMore questions.old.topics questions.new.topics) }
    ensures asked { OnOk result (AreExpected (Asks questions.new.topics) (keys_of file.now)) }
    ensures within { AsksAtMost (3 * file_size file.now) questions.old.topics
        questions.new.topics }
{
    for next in keys_of(alloc, file) {
        match next {
            Ok(key) => {
                if !ask_key(alloc, questions, &key)? {
                    return Ok(());
                }
            }
            Err(stop) => return stopped_by(stop.cause),
        }
    }
    Ok(())
}

// Skips a fault of a file: the run that prints the answers meets it again and reports it.
fn stopped_by(cause: Cause) -> Result<(), AllocError>
    ensures { OnOk result (cause ≢ NoMemory) }
{
    match cause {
        Cause::NoMemory => Err(AllocError),
        _ => Ok(()),
    }
}

// Queries for a key, and returns true if it can be read.
fn ask_key(
    alloc: Global,
    questions: &mut Questions<Held>,
    key: &FileKey,
) -> Result<bool, AllocError>
    requires { IsOrderly questions.old.topics }
    ensures found { questions.new.found ≡ questions.old.found }
    ensures orderly { IsOrderly questions.new.topics }
    ensures more { OnOk result (AsksMore questions.old.topics questions.new.topics) }
    ensures asked { OnOk result
        (IfOk (subject_of key.now.line.blob) (Asks questions.new.topics)) }
    ensures unread { IfOk result (λ read. read ≡ false → IsErr (subject_of key.now.line.blob)) }
    ensures within { AsksAtMost (blob_room key.now.line.blob) questions.old.topics
        questions.new.topics }
{
    match key.read() {
        Ok(any) => {
            questions.ask(&any.subject(alloc)?)?;
            Ok(true)
        }
        Err(_) => Ok(false),
    }
}
