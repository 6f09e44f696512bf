//! Laws about what runs print. Each function does nothing: its contract is the law.

ghost use Rattle.std.specs.Prelude.{◌≡◌, ℕ, [], true, false, List, Some, None};
ghost use Rattle.ssh_wire.specs.Wire.{IsBytes};
ghost use Rattle.krl_types.specs.Subject.{Subject};
ghost use Rattle.ssh_key.specs.Key.{IsKey, PublicKey};
ghost use Rattle.key_text.specs.Container.{IsContainer, IsPrivateFault};
ghost use Rattle.key_text.specs.ContainerReading.{private_at};
ghost use Rattle.key_text.specs.KeyFile.{has_key};
ghost use Rattle.key_text.specs.KeyLine.{IsKeyLine};
ghost use Rattle.key_text.specs.LineFaults.{IsFirstLineFault};
ghost use Rattle.key_text.specs.LineReading.{KeyLine, content};
ghost use Rattle.key_text.specs.declared.line_fault.LineFault.{LineFault};
ghost use Rattle.key_text.specs.declared.private_fault.PrivateFault.{PrivateFault};
ghost use Rattle.ssh_cert.specs.SubjectReading.{IsSubject, IsSubjectFault};
ghost use Rattle.ssh_cert.specs.declared.subject_fault.SubjectFault.{SubjectFault};
ghost use Rattle.run_output.specs.declared.answer.Answer.{Answer};
ghost use Rattle.keyed_lines.specs.declared.key_cause.KeyCause.TheVariants as keys;
ghost use Rattle.run_faults.specs.declared.cause.Cause.TheVariants.{Key, Private};
ghost use Rattle.run_output.specs.Items.{SpellsKey};
ghost use Rattle.run_faults.specs.Keys.{run_fault_at};
ghost use Rattle.run_output.specs.Run.{Answered, Answering, Stopped, container_item, item_of};
ghost use Rattle.run_output.specs.Run.{said};
ghost use Rattle.run_faults.specs.RunFault.{run_fault_of};

use key_text::laws::{
    line_read_where_spelled, line_refused_by_first_fault, private_read_where_spelled,
    private_refused_by_first_fault,
};
use ssh_cert::laws::{asked_where_spelled, not_asked_by_first_fault};
use ssh_key::laws::blob_read_back;

/// A line without a key has no item. A line with a key is answered, or skipped by the run, exactly
/// where it spells the key of a plain key or of a certificate; otherwise its first fault, or that
/// of its blob, ends the run.
pub fn items_by_what_is_spelled()
    ensures none { (answer : Answering) (name : List ℕ) (number : ℕ) (text : List ℕ)
        → has_key text ≡ false → item_of answer name number text ≡ None }
    ensures answered { (answer : Answering) (name : List ℕ) (number : ℕ) (text : List ℕ)
        (line : KeyLine) (asked : Subject) (key : PublicKey)
        → has_key text ≡ true → SpellsKey text line asked key
        → item_of answer name number text
        ≡ Some (said name (answer.say name (Some number) line asked key)) }
    ensures only { (answer : Answering) (name : List ℕ) (number : ℕ) (text : List ℕ)
        (other : List ℕ) (reply : Answer) → IsBytes text
        → item_of answer name number text ≡ Some (Answered other reply)
        → (line : KeyLine) × (asked : Subject) × (key : PublicKey) × SpellsKey text line asked key
        × (Some reply ≡ answer.say name (Some number) line asked key) }
    ensures line_fault { (answer : Answering) (name : List ℕ) (number : ℕ) (text : List ℕ)
        (fault : LineFault) → IsBytes text → has_key text ≡ true → IsFirstLineFault text fault
        → item_of answer name number text
        ≡ Some (Stopped (run_fault_at name number (Key (keys.Line fault)))) }
    ensures blob_fault { (answer : Answering) (name : List ℕ) (number : ℕ)
        (text word blob comment : List ℕ) (fault : SubjectFault)
        → has_key text ≡ true → IsKeyLine text word blob comment → IsSubjectFault blob fault
        → item_of answer name number text
        ≡ Some (Stopped (run_fault_at name number (Key (keys.Subject fault)))) }
{
    line_read_where_spelled();
    line_refused_by_first_fault();
    blob_read_back();
    asked_where_spelled();
    not_asked_by_first_fault();
}

/// A container is answered by its public key and its comment; otherwise its first fault ends the
/// run.
pub fn containers_by_what_is_spelled()
    ensures answered { (answer : Answering) (name text blob comment : List ℕ) (asked : Subject)
        (key : PublicKey) → IsBytes text → IsBytes blob → IsContainer text blob comment
        → IsSubject blob asked → IsKey asked.plain key
        → container_item answer name (private_at text)
        ≡ said name (answer.say name None (content [] blob comment) asked key) }
    ensures fault { (answer : Answering) (name text : List ℕ) (fault : PrivateFault)
        → IsBytes text → IsPrivateFault text fault
        → container_item answer name (private_at text)
        ≡ Stopped (run_fault_of name (Private fault)) }
{
    private_read_where_spelled();
    private_refused_by_first_fault();
    blob_read_back();
    asked_where_spelled();
}
