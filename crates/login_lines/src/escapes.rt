//! Bytes as sshd writes them in its log.

ghost use Rattle.std.specs.Prelude.{◌≡◌, ◌+◌, ◌≤◌, ℕ, List, IfNone, IfOk, IfSome, length};
ghost use Rattle.std.specs.Prelude.{option_map};
ghost use Rattle.std.specs.Borrow.{Bor};
ghost use Rattle.login_lines.specs.Escapes.{Escapes, byte_at, letter_of, octal_at, octal_of};

use std::alloc::{AllocError, Global};

/// The bytes that a text of sshd's log represents, if it represents any.
///
/// sshd writes a backslash twice, and a byte that is not printable ASCII as a backslash and three
/// octal digits; to syslog it writes a line feed as `\n`, and some other control bytes so. The
/// form is that of vis(3).
pub fn unescape(alloc: Global, text: &[u8]) -> Result<Option<Vec<u8>>, AllocError>
    ensures found { IfOk result (λ read. IfSome read (λ bytes. Escapes text.now bytes.items)) }
    ensures none { IfOk result (λ read. IfNone read ((bytes : List ℕ) → ¬ Escapes text.now bytes)) }
{
    let mut bytes = Vec::new(alloc);
    let mut rest = text;
    while !rest.is_empty() {
        match first_byte(rest) {
            Some((byte, next)) => {
                bytes.push(byte)?;
                rest = next;
            }
            None => return Ok(None),
        }
    }
    Ok(Some(bytes))
}

// The first byte that a text spells, and the text after it.
#[tactic(auto, unfolding(crate::specs::Escapes::byte_at))]
fn first_byte(text: &[u8]) -> Option<(u8, &[u8])>
    ensures byte { option_map (λ p. (p.0, p.1.now)) result ≡ byte_at text.now }
    ensures shorter { IfSome result (λ p. length p.1.now + 1 ≤ length text.now) }
{
    match text {
        [] | [b'\\'] => None,
        [b'\\', next, rest @ ..] => match letter_of(*next) {
            Some(byte) => Some((byte, rest)),
            None => octal_byte(&text[1..]),
        },
        [byte, rest @ ..] => Some((*byte, rest)),
    }
}

// The byte that a letter after a backslash represents.
#[tactic(auto, unfolding(crate::specs::Escapes::letter_of))]
fn letter_of(letter: u8) -> Option<u8>
    ensures { result ≡ letter_of letter }
{
    match letter {
        b'\\' => Some(92),
        b'n' => Some(10),
        b't' => Some(9),
        b'r' => Some(13),
        b'a' => Some(7),
        b'b' => Some(8),
        b'v' => Some(11),
        b'f' => Some(12),
        _ => None,
    }
}

// The byte of the first three octal digits, and the text after them.
#[tactic(auto, unfolding(crate::specs::Escapes::octal_at))]
fn octal_byte(text: &[u8]) -> Option<(u8, &[u8])>
    ensures byte { option_map (λ p. (p.0, p.1.now)) result ≡ octal_at text.now }
    ensures shorter { IfSome result (λ p. length p.1.now + 1 ≤ length text.now) }
{
    match text {
        [a, b, c, rest @ ..] => {
            let byte = octal_of(*a, *b, *c)?;
            Some((byte, rest))
        }
        _ => None,
    }
}

// The byte that three octal digits spell.
#[tactic(auto, unfolding(crate::specs::Escapes::octal_of))]
fn octal_of(a: u8, b: u8, c: u8) -> Option<u8>
    ensures { result ≡ octal_of a b c }
{
    match (a, b, c) {
        (b'0'..=b'3', b'0'..=b'7', b'0'..=b'7') => {
            Some(64 * (a - b'0') + 8 * (b - b'0') + (c - b'0'))
        }
        _ => None,
    }
}
