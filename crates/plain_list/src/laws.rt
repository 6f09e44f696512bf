//! Laws of plain lists. Each function does nothing: its contract is the law.

ghost use Rattle.std.specs.Prelude.{◌≡◌, ◌↔◌, ℕ, List, All, Err, Ok, Option};
ghost use Rattle.ssh_wire.specs.Wire.{IsBytes};
ghost use Rattle.keyed_lines.specs.declared.key_cause.KeyCause.{KeyCause};
ghost use Rattle.krl_entries.specs.Revoked.{Revoked};
ghost use Rattle.krl_types.specs.Subject.{Subject};
ghost use Rattle.plain_list.specs.Key.{line_key};
ghost use Rattle.plain_list.specs.List.{entries_of};
ghost use Rattle.plain_list.specs.Spelled.{IsLineFault, IsRevokedByLine, Revokes};

use keyed_lines::laws::key_where_spelled;
use ssh_key::laws::blob_read_back;

/// A line revokes exactly the key that it spells, or none.
pub fn line_read_as_spelled()
    ensures read { (line : List ℕ) (key : Option (List ℕ)) → IsBytes line
        → (line_key line ≡ Ok key) ↔ Revokes line key }
    ensures refused { (line : List ℕ) (cause : KeyCause) → IsBytes line
        → (line_key line ≡ Err cause) ↔ IsLineFault line cause }
{
    key_where_spelled();
    blob_read_back();
}

/// The entries of a plain list revoke exactly the keys on its lines, and the certificates of these
/// keys and of these authorities.
pub fn revokes_the_keys_on_its_lines()
    ensures { (lines : List (List ℕ)) (subject : Subject) → All IsBytes lines
        → Revoked (entries_of lines) subject ↔ IsRevokedByLine lines subject }
{
    line_read_as_spelled();
}
