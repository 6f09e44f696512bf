//! How a run answers for a key.

ghost use Rattle.std.specs.Prelude.{◌≡◌, IfOk};
ghost use Rattle.ssh_cert.specs.AnyKey.{IsReadAs, asked_of, plain_of};

use crate::answer::Answer;
use run_faults::{FileFault, FileKey};
use ssh_cert::AnyKey;
use std::alloc::{AllocError, Global};

/// How a run answers for each key of its files.
pub trait Answers {
    ghost use Rattle.run_output.specs.Run.{Answering};
    ghost use Rattle.krl_types.specs.Subject.{Subject};

    // the run whose answers it gives
    ghost answers_as: { Self → Answering → Type 0 };

    // the subjects for which it can be called
    ghost expects: { Self → Subject → Type 0 };

    /// The answer for a key, given what its blob was read as. None if the run prints nothing.
    fn answer(
        &self,
        alloc: Global,
        key: &FileKey,
        any: &AnyKey,
    ) -> Result<Option<Answer>, AllocError>
        requires read { IsReadAs key.now.line.blob any.now }
        requires expected { expects self.now (asked_of any.now) }
        ensures { (answering : Answering) → answers_as self.now answering
            → IfOk result (λ answer. answer ≡ answering.say key.now.name key.now.number
            key.now.line (asked_of any.now) (plain_of any.now)) };

    /// The fault of a file that has no answer.
    fn unanswered(&self) -> FileFault
        ensures { (answering : Answering) → answers_as self.now answering
            → result ≡ answering.unanswered };
}
