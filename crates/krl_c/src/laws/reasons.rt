//! Laws of the reasons why a list revokes a key.

ghost use Rattle.std.specs.Prelude.{◌≡◌, ◌↔◌, ◌⊎◌, ℕ, ℤ, List};
ghost use Rattle.ssh_wire.specs.Wire.{IsBytes};
ghost use Rattle.krl_c.specs.Answer.{Answers};
ghost use Rattle.krl_c.specs.Laws.{answer_of};
ghost use Rattle.krl_c.specs.Number.{fine, no_memory};
ghost use Rattle.krl_c.specs.Why.{Explains};

use crate::laws::one_answer;
use krl_entries::laws::revoked_for_a_reason;

/// The answer of `krl_why` is 0 exactly if that of `krl_check` is 0, above 0 exactly if that is 1,
/// and otherwise the same number, unless an allocation fails.
pub fn reasons_where_revoked()
    ensures answers { (list blob : List ℕ) (reasons : ℤ) → Explains list blob reasons
        → Answers list blob (answer_of reasons) }
    ensures same { (list blob : List ℕ) (answer reasons : ℤ) → IsBytes list → IsBytes blob
        → Answers list blob answer → Explains list blob reasons
        → (answer ≡ answer_of reasons) ⊎ ((answer ≡ no_memory) ⊎ (reasons ≡ no_memory)) }
    ensures none { (list blob : List ℕ) (answer reasons : ℤ) → IsBytes list → IsBytes blob
        → Answers list blob answer → Explains list blob reasons
        → (answer ≡ fine ↔ reasons ≡ fine) ⊎ ((answer ≡ no_memory) ⊎ (reasons ≡ no_memory)) }
{
    one_answer();
    revoked_for_a_reason();
}
