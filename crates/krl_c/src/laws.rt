//! Laws of the answers. Each function does nothing: its contract is the law.

ghost use Rattle.std.specs.Prelude.{◌≡◌, ◌⊎◌, ℕ, ℤ, List};
ghost use base.Shift.{Keyless};
ghost use denote.RawPtr.{Ptr};
ghost use Rattle.ssh_wire.specs.Wire.{IsBytes};
ghost use Rattle.key_text.specs.LineFault.{fault_text as line_fault_text};
ghost use Rattle.key_text.specs.declared.line_fault.LineFault.{LineFault};
ghost use Rattle.key_text.specs.declared.line_fault.LineFault.TheVariants as lines;
ghost use Rattle.ssh_cert.specs.SubjectFault.{subject_fault_text};
ghost use Rattle.ssh_cert.specs.declared.subject_fault.SubjectFault.{SubjectFault};
ghost use Rattle.ssh_cert.specs.declared.subject_fault.SubjectFault.TheVariants as subjects;
ghost use Rattle.krl_types.specs.KrlFault.{fault_text};
ghost use Rattle.krl_types.specs.declared.krl_fault.KrlFault.{KrlFault};
ghost use Rattle.krl_types.specs.declared.krl_fault.KrlFault.TheVariants as lists;
ghost use Rattle.krl_c.specs.Answer.{Answers, AnswersOfLine, HasOne};
ghost use Rattle.krl_c.specs.Any.{AnswersAny};
ghost use Rattle.krl_c.specs.Loan.{Loan, is_lent};
ghost use Rattle.krl_c.specs.Number.{line_number, list_number, no_memory, subject_number};
ghost use Rattle.krl_c.specs.Words.{words};

mod numbers;
mod reasons;

use key_text::laws::{line_read_where_spelled, line_refused_by_first_fault};
use krl_format::laws::{no_fault_where_spelled, one_first_fault, one_spelling};
pub use numbers::{handles_stay_ready, some_numbers_are_never_answered, words_are_short};
pub use reasons::reasons_where_revoked;
use ssh_cert::laws::{asked_where_spelled, not_asked_by_first_fault};

/// A list has one row of entries or one first fault.
pub fn one_list()
    ensures { (list : List ℕ) → IsBytes list → HasOne list }
{
    one_spelling();
    one_first_fault();
    no_fault_where_spelled();
}

/// A list has one answer for a blob, unless an allocation fails.
pub fn one_answer()
    ensures { (list blob : List ℕ) (one other : ℤ) → IsBytes list → IsBytes blob
        → Answers list blob one → Answers list blob other
        → (one ≡ other) ⊎ ((one ≡ no_memory) ⊎ (other ≡ no_memory)) }
{
    one_list();
    asked_where_spelled();
    not_asked_by_first_fault();
}

/// A list that may be a plain list has one answer for a blob, unless an allocation fails.
pub fn one_answer_of_any_list()
    ensures { (list blob : List ℕ) (one other : ℤ) → IsBytes list → IsBytes blob
        → AnswersAny list blob one → AnswersAny list blob other
        → (one ≡ other) ⊎ ((one ≡ no_memory) ⊎ (other ≡ no_memory)) }
{
    one_answer();
    asked_where_spelled();
    not_asked_by_first_fault();
}

/// A list has one answer for the key of a line, unless an allocation fails.
pub fn one_answer_of_a_line()
    ensures { (list text : List ℕ) (one other : ℤ) → IsBytes list → IsBytes text
        → AnswersOfLine list text one → AnswersOfLine list text other
        → (one ≡ other) ⊎ ((one ≡ no_memory) ⊎ (other ≡ no_memory)) }
{
    one_list();
    asked_where_spelled();
    not_asked_by_first_fault();
    line_read_where_spelled();
    line_refused_by_first_fault();
}

/// A loan of a handle's stored list does not depend on a thread, so any thread may have it, and
/// many at the same time.
pub fn lent_to_any_thread()
    ensures { (at : Ptr) (loan : Loan) → Keyless (is_lent at loan) }
{}

/// The words for a fault's number are those that the fault prints.
pub fn words_are_printed()
    ensures list { (fault : KrlFault) → ¬ (fault ≡ lists.NoMemory)
        → words (list_number fault) ≡ fault_text fault }
    ensures line { (fault : LineFault) → ¬ (fault ≡ lines.NoMemory)
        → words (line_number fault) ≡ line_fault_text fault }
    ensures subject { (fault : SubjectFault) → ¬ (fault ≡ subjects.NoMemory)
        → words (subject_number fault) ≡ subject_fault_text fault }
{}
