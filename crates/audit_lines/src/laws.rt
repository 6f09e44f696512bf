//! Laws of the outcomes of lines. Each function does nothing: its contract is the law.

ghost use Rattle.std.specs.Prelude.{◌≡◌, ◌⊎◌, ℕ, true, false, List, None, Ok, Some};
ghost use Rattle.ssh_wire.specs.Wire.{IsBytes};
ghost use Rattle.ssh_cert.specs.SubjectReading.{IsSubject};
ghost use Rattle.key_text.specs.KeyFile.{has_key};
ghost use Rattle.key_text.specs.Blanks.{trimmed};
ghost use Rattle.key_text.specs.KeyLine.{IsHostLine, IsKeyLine};
ghost use Rattle.key_text.specs.LineFaults.{IsFirstLineFault};
ghost use Rattle.key_text.specs.Marker.{IsMarkedLine, marker_of, unmarked};
ghost use Rattle.key_text.specs.declared.line_fault.LineFault.{LineFault};
ghost use Rattle.key_text.specs.declared.marker.Marker.{Marker as MarkerOf};
ghost use Rattle.krl_types.specs.Subject.{Subject};
ghost use Rattle.audit_lines.specs.Outcome.{Empty, HasFound, Unread, asked_outcome};
ghost use Rattle.audit_lines.specs.Outcome.{has_zero_in_id, hosts_of, one, options_of, outcomes_of};
ghost use Rattle.audit_lines.specs.declared.front.Fronts.{Fronts as FrontsOf};
ghost use Rattle.audit_lines.specs.declared.front.Fronts.TheVariants as fronts;
ghost use Rattle.audit_lines.specs.declared.why.Why.TheVariants.{Key as KeyWhy};
ghost use Rattle.keyed_lines.specs.declared.key_cause.KeyCause.TheVariants.{Line};

use key_text::laws::{
    host_line_read_where_spelled, line_read_where_spelled, line_refused_by_first_fault,
    marked_line_is_read,
};
use ssh_cert::laws::asked_where_spelled;

/// A line that is neither blank nor a comment has a key if it spells one, as a line of authorized
/// keys or of known hosts, as the file says, and as a line of known hosts after a marker. A line of
/// authorized keys without a key has its first fault.
pub fn lines_by_what_is_spelled()
    ensures none { (kind : FrontsOf) (text : List ℕ) → has_key text ≡ false
        → outcomes_of kind text ≡ one Empty }
    ensures options { (text word blob comment : List ℕ) (asked : Subject) → has_key text ≡ true
        → marker_of text ≡ None → IsKeyLine text word blob comment → IsSubject blob asked
        → outcomes_of fronts.Options text ≡ one (asked_outcome None false
        (options_of (trimmed text)) blob comment (Ok asked)) }
    ensures hosts { (text word blob comment : List ℕ) (asked : Subject) → has_key text ≡ true
        → marker_of text ≡ None → IsHostLine text word blob comment → IsSubject blob asked
        → outcomes_of fronts.Hosts text ≡ one (asked_outcome None true
        (hosts_of (trimmed text)) blob comment (Ok asked)) }
    ensures marked { (kind : FrontsOf) (text : List ℕ) (marker : MarkerOf)
        (word blob comment : List ℕ) (asked : Subject) → has_key text ≡ true
        → IsMarkedLine text marker word blob comment → IsSubject blob asked
        → outcomes_of kind text ≡ one (asked_outcome (Some marker) true
        (hosts_of (trimmed (unmarked text))) blob comment (Ok asked)) }
    ensures fault { (text : List ℕ) (fault : LineFault) → IsBytes text → has_key text ≡ true
        → marker_of text ≡ None → IsFirstLineFault text fault
        → outcomes_of fronts.Options text ≡ one (Unread (KeyWhy (Line fault))) }
{
    line_read_where_spelled();
    host_line_read_where_spelled();
    marked_line_is_read();
    asked_where_spelled();
    line_refused_by_first_fault();
}

/// A line of a file of which nobody knows whether it is of authorized keys or of known hosts has
/// the key that it spells as either of them, unless the key ID of a certificate has a zero byte.
pub fn both_readings_are_found()
    ensures { (text word blob comment : List ℕ) (asked : Subject) → has_key text ≡ true
        → marker_of text ≡ None
        → IsKeyLine text word blob comment ⊎ IsHostLine text word blob comment
        → IsSubject blob asked → has_zero_in_id asked.cert ≡ false
        → HasFound (outcomes_of fronts.Either text) blob }
{
    line_read_where_spelled();
    host_line_read_where_spelled();
    asked_where_spelled();
}
