//! Where the message of a line begins.

ghost use Rattle.std.specs.Prelude.{◌≡◌, ◌≤◌, true, length, IfSome, option_map};
ghost use Rattle.login_lines.specs.Messages.{after_tag, message_of, prefix_of, tag_here};
ghost use Rattle.login_lines.specs.Messages.{tagged_at};

use crate::opening::split_opening;
use crate::words::{Class, after, split_span};

/// The text before the message of a line, and the message.
#[tactic(auto, unfolding(crate::specs::Messages::prefix_of))]
pub fn split_message(line: &[u8]) -> (&[u8], &[u8])
    ensures prefix { result.0.now ≡ prefix_of line.now }
    ensures message { result.1.now ≡ message_of line.now }
{
    let message = message_of(line);
    let prefix = line.split_at(line.len() - message.len()).0;
    (prefix, message)
}

// The message of a line.
#[tactic(auto, unfolding(crate::specs::Messages::message_of))]
fn message_of(line: &[u8]) -> &[u8]
    ensures message { result.now ≡ message_of line.now }
    ensures within { length result.now ≤ length line.now }
{
    if split_opening(line).is_some() {
        return line;
    }
    match after_first_tag(line) {
        Some(message) => message,
        None => line,
    }
}

// The text after the first tag that begins a word.
#[tactic(auto, unfolding(crate::specs::Messages::tagged_at))]
fn after_first_tag(line: &[u8]) -> Option<&[u8]>
    ensures tagged { option_map (λ rest. rest.now) result ≡ tagged_at true line.now }
    ensures within { IfSome result (λ rest. length rest.now ≤ length line.now) }
{
    let mut starts = true;
    let mut rest = line;
    'bytes: while let [byte, next @ ..] = rest {
        if let Some(message) = tag_here(starts, rest) {
            return Some(message);
        }
        starts = *byte == b' ';
        rest = next;
    }
    None
}

// The text after a tag, if one may be here.
fn tag_here(starts: bool, text: &[u8]) -> Option<&[u8]>
    ensures tag { option_map (λ rest. rest.now) result ≡ tag_here starts text.now }
    ensures within { IfSome result (λ rest. length rest.now ≤ length text.now) }
{
    if starts { after_tag(text) } else { None }
}

// The text after the name of sshd's program, its number and a colon.
#[tactic(auto, unfolding(crate::specs::Messages::after_tag))]
fn after_tag(text: &[u8]) -> Option<&[u8]>
    ensures tag { option_map (λ rest. rest.now) result ≡ after_tag text.now }
    ensures within { IfSome result (λ rest. length rest.now ≤ length text.now) }
{
    let numbered = match after(b"sshd[", text) {
        Some(rest) => rest,
        None => after(b"sshd-session[", text)?,
    };
    let (_, rest) = split_span(Class::Digit, b"]: ", numbered)?;
    Some(rest)
}
