//! A law about every line, as the contract of a function that does nothing.

ghost use Rattle.std.specs.Prelude.{◌≡◌, ◌↔◌, ℕ, List, Err, Ok};
ghost use Rattle.ssh_wire.specs.Wire.{IsBytes};
ghost use Rattle.krl_types.specs.Subject.{Subject};
ghost use Rattle.keyed_lines.specs.Keys.{IsKeyFault, IsSubjectLine, subject_in};
ghost use Rattle.keyed_lines.specs.declared.key_cause.KeyCause.{KeyCause};

use key_text::laws::{line_read_where_spelled, line_refused_by_first_fault};
use ssh_cert::laws::{asked_where_spelled, not_asked_by_first_fault};

/// The subject of a key line is read exactly where the text is a key line with the blob of a plain
/// key or of a certificate. A text gives a fault exactly if it is its first one, or that of its
/// blob.
pub fn key_where_spelled()
    ensures read { (text : List ℕ) (asked : Subject) → IsBytes text
        → (subject_in text ≡ Ok asked) ↔ IsSubjectLine text asked }
    ensures refused { (text : List ℕ) (cause : KeyCause) → IsBytes text
        → (subject_in text ≡ Err cause) ↔ IsKeyFault text cause }
{
    line_read_where_spelled();
    line_refused_by_first_fault();
    asked_where_spelled();
    not_asked_by_first_fault();
}
