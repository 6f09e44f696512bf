//! Laws of the numbers of answers, and of the words for them.

ghost use Rattle.std.specs.Prelude.{◌≤◌, ℕ, ℤ, List, length};
ghost use Rattle.krl_c.specs.Answer.{Answers, AnswersBlob, AnswersLine, AnswersOfLine};
ghost use Rattle.krl_c.specs.Any.{AnswersAny};
ghost use Rattle.krl_c.specs.Laws.{IsAnswer, IsReady};
ghost use Rattle.krl_c.specs.Stored.{AnswersStored, Loads};
ghost use Rattle.krl_c.specs.Why.{Explains};
ghost use Rattle.krl_c.specs.Words.{words};
ghost use Rattle.krl_c.specs.declared.stored.Stored.{Stored as StoredOf};

/// No words are longer than 64 bytes.
pub fn words_are_short()
    ensures { (answer : ℤ) → length (words answer) ≤ 64 }
{}

/// No call answers -113, -114, -402, -502 or -507.
pub fn some_numbers_are_never_answered()
    ensures check { (list blob : List ℕ) (answer : ℤ) → Answers list blob answer
        → IsAnswer answer }
    ensures any { (list blob : List ℕ) (answer : ℤ) → AnswersAny list blob answer
        → IsAnswer answer }
    ensures line { (list text : List ℕ) (answer : ℤ) → AnswersOfLine list text answer
        → IsAnswer answer }
    ensures why { (list blob : List ℕ) (answer : ℤ) → Explains list blob answer
        → IsAnswer answer }
    ensures load { (list : List ℕ) (old new : StoredOf) (answer : ℤ) → Loads list old new answer
        → IsAnswer answer }
    ensures ask { (stored : StoredOf) (blob : List ℕ) (answer : ℤ) → IsReady stored
        → AnswersStored (λ entries. AnswersBlob entries blob) stored answer → IsAnswer answer }
    ensures ask_line { (stored : StoredOf) (text : List ℕ) (answer : ℤ) → IsReady stored
        → AnswersStored (λ entries. AnswersLine entries text) stored answer → IsAnswer answer }
{}

/// A handle that had no list, or one that means some entries, has no list or such a one after
/// `krl_load`.
pub fn handles_stay_ready()
    ensures { (list : List ℕ) (old new : StoredOf) (answer : ℤ) → IsReady old
        → Loads list old new answer → IsReady new }
{}
