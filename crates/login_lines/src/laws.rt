//! Laws that hold for every line, each the contract of a function that does nothing. `login_of`
//! returns what `login_at` names, and `unescape` what is spelled.

ghost use Rattle.std.specs.Prelude.{◌≡◌, ◌≢◌, ◌↔◌, ℕ, List, ◌++◌, None, true, Ok, Err, Some};
ghost use Rattle.ssh_wire.specs.Wire.{IsBytes};
ghost use Rattle.login_lines.specs.declared.fault.LoginFault.{LoginFault};
ghost use Rattle.login_lines.specs.declared.opening.Opening.{Opening};
ghost use Rattle.login_lines.specs.Escapes.{Escapes, syslog_text, terminal_text};
ghost use Rattle.login_lines.specs.KeyNames.{Name};
ghost use Rattle.login_lines.specs.Logins.{Reported, Signed, login_at};
ghost use Rattle.login_lines.specs.Messages.{message_of, prefix_of};
ghost use Rattle.login_lines.specs.Numbers.{IsNumber};
ghost use Rattle.login_lines.specs.Openings.{BeginsWith, opening_words};
ghost use Rattle.login_lines.specs.Spelling.{HasFirstTag, HasTag, IsLogin, IsLoginFault};
ghost use Rattle.login_lines.specs.Spelling.{IsTail, NamesKey, group_text};

/// Reading returns a login exactly if the line reports it.
pub fn login_read_where_reported()
    ensures { (line : List ℕ) (login : Reported) → IsBytes line
        → (login_at line ≡ Ok (Some login)) ↔ IsLogin line login }
{}

/// Reading returns a fault exactly if the line has it.
pub fn login_refused_by_its_fault()
    ensures { (line : List ℕ) (fault : LoginFault) → IsBytes line
        → (login_at line ≡ Err fault) ↔ IsLoginFault line fault }
{}

/// A line is skipped if its message begins with other words than that of a login, and only then.
pub fn other_messages_are_skipped()
    ensures skipped { (line : List ℕ)
        → ((opening : Opening) → ¬ BeginsWith (message_of line) (opening_words opening))
        → login_at line ≡ Ok None }
    ensures logins { (line : List ℕ) (opening : Opening)
        → BeginsWith (message_of line) (opening_words opening) → login_at line ≢ Ok None }
{}

/// A line reports at most one login.
pub fn one_login()
    ensures { (line : List ℕ) (a b : Reported) → IsLogin line a → IsLogin line b → a ≡ b }
{}

/// A certificate's login has the serial number and the authority of the group at the end of its
/// message, whatever the bytes before the group are.
pub fn last_group_counts()
    ensures { (line front digits authority tail : List ℕ) (login : Reported) (certificate : Signed)
        (serial : ℕ) (name : Name) → IsLogin line login → login.certificate ≡ Some certificate
        → IsNumber digits serial → NamesKey authority name → IsTail tail
        → message_of line ≡ front ++ group_text digits (authority ++ tail)
        → (certificate.serial ≡ serial) × (certificate.authority ≡ name) }
{}

/// A line is its prefix and its message. A line that begins as a login has no prefix; in another
/// line the message is behind its first tag, or is the whole line if it has none.
pub fn line_is_prefix_and_message()
    ensures parts { (line : List ℕ) → line ≡ prefix_of line ++ message_of line }
    ensures bare { (line : List ℕ) (opening : Opening) → BeginsWith line (opening_words opening)
        → message_of line ≡ line }
    ensures tagged { (line before tag message : List ℕ)
        → ((opening : Opening) → ¬ BeginsWith line (opening_words opening))
        → HasFirstTag true line before tag message
        → (message_of line ≡ message) × (prefix_of line ≡ before ++ tag) }
    ensures untagged { (line : List ℕ)
        → ((before tag message : List ℕ) → ¬ HasTag true line before tag message)
        → message_of line ≡ line }
{}

/// The text that sshd writes for bytes is read as these bytes, and as no others.
pub fn escapes_are_read()
    ensures terminal { (bytes : List ℕ) → IsBytes bytes → Escapes (terminal_text bytes) bytes }
    ensures syslog { (bytes : List ℕ) → IsBytes bytes → Escapes (syslog_text bytes) bytes }
    ensures one { (text a b : List ℕ) → Escapes text a → Escapes text b → a ≡ b }
{}
