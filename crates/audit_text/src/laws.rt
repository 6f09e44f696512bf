//! Laws of printed findings. Each function does nothing: its contract is the law.

ghost use Rattle.std.specs.Prelude.{ℕ, ◌<◌, ◌^◌, true, false, List};
ghost use Rattle.ssh_wire.specs.Wire.{IsBytes};
ghost use Rattle.ssh_cert.specs.SubjectReading.{IsSubject};
ghost use Rattle.krl_types.specs.Subject.{Subject};
ghost use Rattle.json_lines.specs.ReadBack.{IsReadBack};
ghost use Rattle.audit_text.specs.Answer.{Answer, HaveNumbers};
ghost use Rattle.audit_text.specs.Colour.{HasNoEscape, IsCount, IsPainted};
ghost use Rattle.audit_text.specs.More.{more_line, more_object};
ghost use Rattle.audit_text.specs.Objects.{key_object, unread_object};
ghost use Rattle.audit_lines.specs.Outcome.{Found};
ghost use Rattle.audit_text.specs.Place.{HasNumbers, Place};
ghost use Rattle.audit_text.specs.Same.{same_line, same_object};
ghost use Rattle.audit_text.specs.Text.{key_text, unread_line};
ghost use Rattle.audit_text.specs.declared.line_kind.LineKind.{LineKind as LineKindOf};
ghost use Rattle.audit_lines.specs.declared.why.Why.{Why as WhyOf};

use json_lines::laws::lines_are_read_back;
use ssh_wire::laws::string_is_read_back;

/// Each object of a finding is one line, which a JSON reader reads as exactly that object, whatever
/// the label before the name of the file is.
pub fn objects_are_read_back()
    ensures key { (place : Place) (found : Found) (answer : Answer)
        → HasNumbers place → HaveNumbers answer.explained
        → IsReadBack (key_object place found answer) }
    ensures unread { (place : Place) (why : WhyOf) → HasNumbers place
        → IsReadBack (unread_object place why) }
    ensures more { (place : Place) (kind : LineKindOf) (lines : ℕ) → HasNumbers place
        → lines < 2 ^ 64 → IsReadBack (more_object place kind lines) }
    ensures same { (place : Place) → HasNumbers place → IsReadBack (same_object place) }
{
    lines_are_read_back();
}

/// A finding in colour is the plain finding with one word in a colour. The plain finding has no
/// escape sequence, whatever the label, the name of the file, the key ID, the comment and the lines
/// that explain it are. So a terminal obeys nothing but the colour of that word.
pub fn one_word_is_in_colour()
    ensures key { (place : Place) (blob comment : List ℕ) (asked : Subject) (answer : Answer)
        → HasNumbers place → HaveNumbers answer.explained → IsBytes blob
        → IsSubject blob asked → IsPainted (key_text false place blob comment asked answer)
        (key_text true place blob comment asked answer) }
    ensures unread { (place : Place) (why : WhyOf) → HasNumbers place → IsCount why
        → IsPainted (unread_line false place why) (unread_line true place why) }
    ensures more { (place : Place) (kind : LineKindOf) (lines : ℕ) → HasNumbers place
        → lines < 2 ^ 64
        → IsPainted (more_line false place kind lines) (more_line true place kind lines) }
    ensures same { (place : Place) → HasNumbers place → HasNoEscape (same_line place) }
{
    string_is_read_back();
}
