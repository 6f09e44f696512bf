//! Laws of the fields of lists. Each function does nothing: its contract is the law.

ghost use Rattle.std.specs.Prelude.{◌≡◌, List, ℕ, None};
ghost use Rattle.ssh_wire.specs.Wire.{IsBytes};
ghost use Rattle.krl_format.specs.Front.{IsFirstKrlFault};
ghost use Rattle.krl_format.specs.Krl.{SpelledSection, Spells};
ghost use Rattle.krl_format.specs.declared.header.Header.{Header};
ghost use Rattle.krl_openssh.specs.Authority.{AuthoritiesAreKeys};
ghost use Rattle.krl_openssh.specs.Fields.{HasFields, IsFirstDifference};

use krl_format::laws::no_fault_where_spelled;
use ssh_key::laws::read_where_spelled;

/// A list that is read without a fault has one sequence of fields.
pub fn read_lists_have_fields()
    ensures some { (list : List ℕ) → IsFirstKrlFault list None
        → (fields : List (List ℕ)) × HasFields list fields }
    ensures one { (list : List ℕ) (fields others : List (List ℕ)) → HasFields list fields
        → HasFields list others → fields ≡ others }
{}

/// If a list has no difference, each certificate authority that it names is a key in its one
/// spelling that OpenSSH accepts, or empty, which means all authorities.
pub fn authorities_are_keys_if_alike()
    ensures { (list : List ℕ) (header : Header) (sections : List SpelledSection)
        → IsBytes list → IsFirstKrlFault list None → Spells list header sections
        → IsFirstDifference list None → AuthoritiesAreKeys sections }
{
    no_fault_where_spelled();
    read_where_spelled();
}
