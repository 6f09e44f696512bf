//! The iteration over the keys of files.

ghost use Rattle.std.specs.Prelude.{◌≡◌, ◌∷◌, [], IfOk, Ok, OnOk};
ghost use Rattle.std.specs.Result.{IsOk};
ghost use Rattle.ssh_cert.specs.SubjectReading.{subject_of};
ghost use Rattle.run_faults.specs.Keys.{keys_of};
ghost use Rattle.run_output.specs.Carries.{Carries};
ghost use Rattle.run_output.specs.Expected.{AllExpected, AreExpected};
ghost use Rattle.run_output.specs.Run.{Answering, GivesAnswer, file_items, files_items};
ghost use Rattle.run_output.specs.Run.{file_key_item, is_answered};

use crate::answer::Answer;
use crate::answers::Answers;
use crate::run::Run;
use byte_streams::Sink;
use run_faults::{Cause, FileKey, Named, RunFault, keys_of};
use std::alloc::Global;

/// Prints the answers for each key of each file, up to the first fault.
pub fn print_files<'a, A: Answers, W: Sink>(
    run: &mut Run<W>,
    answers: &A,
    files: &'a [Named<'a>],
) -> Result<(), RunFault<'a>>
    requires { AllExpected (A.expects answers.now) files.now }
    ensures { (answering : Answering) → A.answers_as answers.now answering
        → Carries (files_items answering files.now) result run.old.printer run.new.printer }
{
    for file in files {
        print_file(run, answers, file)?;
    }
    Ok(())
}

/// Prints the answers for each key of a file. A file without an answer is a fault.
pub fn print_file<'a, A: Answers, W: Sink>(
    run: &mut Run<W>,
    answers: &A,
    file: &'a Named<'a>,
) -> Result<(), RunFault<'a>>
    requires { AreExpected (A.expects answers.now) (keys_of file.now) }
    ensures { (answering : Answering) → A.answers_as answers.now answering
        → Carries (file_items answering file.now) result run.old.printer run.new.printer }
{
    let mut said = false;
    for next in keys_of(run.alloc, file) {
        let key = next?;
        said |= print_key(run, answers, &key)?;
    }
    if !said {
        return Err(RunFault::whole(file.name, Cause::File(answers.unanswered())));
    }
    Ok(())
}

// Prints the answer for a key, and returns whether there is one.
fn print_key<'a, A: Answers, W: Sink>(
    run: &mut Run<W>,
    answers: &A,
    key: &FileKey<'a>,
) -> Result<bool, RunFault<'a>>
    requires { IfOk (subject_of key.now.line.blob) (A.expects answers.now) }
    ensures read { OnOk result (IsOk (subject_of key.now.line.blob)) }
    ensures carries { (answering : Answering) → A.answers_as answers.now answering
        → Carries (file_key_item answering (Ok key.now) ∷ []) result
        run.old.printer run.new.printer }
    ensures said { (answering : Answering) → A.answers_as answers.now answering
        → IfOk result (λ said. said ≡ is_answered (file_key_item answering (Ok key.now) ∷ [])) }
{
    let Some(answer) = answer_key(run.alloc, answers, key)? else {
        return Ok(false);
    };
    run.printer
        .say(key.name, answer.text.as_slice(), answer.revoked)?;
    Ok(true)
}

// The answer of a run for a key.
fn answer_key<'a, A: Answers>(
    alloc: Global,
    answers: &A,
    key: &FileKey<'a>,
) -> Result<Option<Answer>, RunFault<'a>>
    requires { IfOk (subject_of key.now.line.blob) (A.expects answers.now) }
    ensures read { OnOk result (IsOk (subject_of key.now.line.blob)) }
    ensures gives { (answering : Answering) → A.answers_as answers.now answering
        → GivesAnswer (file_key_item answering (Ok key.now)) key.now.name result }
{
    let any = key.read()?;
    match answers.answer(alloc, key, &any) {
        Ok(answer) => Ok(answer),
        Err(_) => Err(RunFault::whole(key.name, Cause::NoMemory)),
    }
}
