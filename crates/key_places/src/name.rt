//! The names of the types of keys and certificates, and where they may begin in a line.

ghost use Rattle.std.specs.Prelude.{◌≡◌, ◌≤◌, not, length, option_map};
ghost use Rattle.std.specs.List.{AllPass};
ghost use Rattle.key_places.specs.Name.{is_escape_letter, is_name_byte, may_begin, name_at, parts};
ghost use Rattle.key_text.specs.Blanks.{is_blank};
ghost use Rattle.key_text.specs.TypeName.{is_type_name};

use key_text::{host_part, is_blank};

// The longest name is shorter than this.
const LONGEST: usize = 64;

// Returns true if a byte may belong to a name.
fn is_name_byte(byte: u8) -> bool
    ensures { result ≡ is_name_byte byte }
{
    byte.is_ascii_alphanumeric() || byte == b'-' || byte == b'.' || byte == b'@'
}

// Returns true if a byte is the letter of an escape of JSON for a line end or a tab.
fn is_escape_letter(byte: u8) -> bool
    ensures { result ≡ is_escape_letter byte }
{
    byte == b'n' || byte == b'r' || byte == b't'
}

/// Returns true if the name of a type may begin at a position: at the start, after a byte that
/// belongs to no name, and after an escape.
#[tactic(auto, unfolding(crate::specs::Name::may_begin))]
pub fn may_begin(line: &[u8], at: usize) -> bool
    requires { at ≤ length line.now }
    ensures { result ≡ may_begin line.now at }
{
    if at == 0 {
        return true;
    }
    let before = line[at - 1];
    !is_name_byte(before) || (at > 1 && line[at - 2] == b'\\' && is_escape_letter(before))
}

/// The name of a type at the start of a text, and the text after it, which begins with a blank.
#[tactic(auto, unfolding(crate::specs::Name::name_at))]
pub fn split_name(text: &[u8]) -> Option<(&[u8], &[u8])>
    ensures { option_map parts result ≡ name_at text.now }
{
    let front = &text[..text.len().min(LONGEST)];
    for (i, byte) in front.iter().enumerate() {
        if is_blank(*byte) {
            let (name, rest) = text.split_at(i);
            return if is_type_name(name) {
                Some((name, rest))
            } else {
                None
            };
        }
    }
    None
}

// Returns true if a word without blanks is the name of a type: no other such word has a part that
// begins with one.
fn is_type_name(word: &[u8]) -> bool
    requires { AllPass (λ byte. not (is_blank byte)) word.now }
    ensures { result ≡ is_type_name word.now }
{
    host_part(word).is_some()
}
