//! Texts that anyone may have written, as they are printed.

ghost use Rattle.std.specs.Prelude.{◌≡◌, ◌++◌, ◌<◌, IfOk, OnOk, false, string_bytes};
ghost use Rattle.std.specs.List.{flat_map};
ghost use Rattle.std.specs.Str.{chars};
ghost use Rattle.ssh_cert.specs.Escape.{numbered};
ghost use Rattle.line_pieces.specs.Visible.{is_bidi_or_line_end, visible, visible_byte};
ghost use Rattle.line_pieces.specs.Visible.{visible_bytes, visible_char};

use crate::printed::Printed;
use ssh_cert::push_numbered;
use std::alloc::{AllocError, Global};
use std::str;

/// A text that anyone may have written, and whether it stands between quotes.
#[derive(Clone, Copy)]
pub struct Visible<'a>(pub &'a [u8], pub bool);

impl<'a> Printed for Visible<'a> {
    ghost text = { λ text. visible text.1 text.0.now };

    fn push_to(&self, out: &mut Vec<u8>) -> Result<(), AllocError> {
        push_visible(out, self.0, self.1)
    }
}

// Appends a text with each control character as `\x` and two hexadecimal digits, also those from
// 0x80 to 0x9f, which some terminals obey. Each byte of Unicode's bidirectional controls and line
// separators, with which one line looks like another one or like two, is shown in the same way, and
// so is each byte from 0x80 on of a text that is not UTF-8. Between quotes a quote and a backslash
// have a backslash before them.
#[tactic(auto, unfolding(crate::specs::Visible::visible))]
fn push_visible(out: &mut Vec<u8>, text: &[u8], quoted: bool) -> Result<(), AllocError>
    ensures { OnOk result (out.new.items ≡ out.old.items ++ visible quoted text.now) }
{
    match str::from_utf8(text) {
        Ok(text) => push_chars(out, text, quoted),
        Err(_) => push_bytes(out, text, quoted),
    }
}

/// The name of a file that is not UTF-8, as ASCII: each control character and each byte from 0x80
/// on as `\x` and two hexadecimal digits.
pub fn visible_name(alloc: Global, name: &[u8]) -> Result<String, AllocError>
    ensures { IfOk result (λ shown. string_bytes shown ≡ visible_bytes false name.now) }
{
    let mut shown = Vec::new(alloc);
    push_bytes(&mut shown, name, false)?;
    Ok(String::from_utf8(shown).unwrap())
}

// Appends the characters.
fn push_chars(out: &mut Vec<u8>, text: &str, quoted: bool) -> Result<(), AllocError>
    ensures { OnOk result (out.new.items
        ≡ out.old.items ++ flat_map (visible_char quoted) (chars text.now)) }
{
    for character in text.chars() {
        push_char(out, character, quoted)?;
    }
    Ok(())
}

// Appends the bytes of a text that is not UTF-8.
fn push_bytes(out: &mut Vec<u8>, text: &[u8], quoted: bool) -> Result<(), AllocError>
    ensures { OnOk result (out.new.items
        ≡ out.old.items ++ visible_bytes quoted text.now) }
{
    for byte in text {
        push_byte(out, *byte, quoted)?;
    }
    Ok(())
}

// Appends a character.
#[tactic(auto, unfolding(crate::specs::Visible::visible_char))]
fn push_char(out: &mut Vec<u8>, character: char, quoted: bool) -> Result<(), AllocError>
    ensures { OnOk result (out.new.items ≡ out.old.items ++ visible_char quoted character) }
{
    if character.is_control() {
        return push_numbered(out, character as u32 as u8);
    }
    if is_bidi_or_line_end(character) {
        let mut bytes = [0; 4];
        return push_each(out, character.encode_utf8(&mut bytes).as_bytes());
    }
    if quoted && (character == '"' || character == '\\') {
        return out.extend_from_slice(&[b'\\', character as u32 as u8]);
    }
    let mut bytes = [0; 4];
    out.extend_from_slice(character.encode_utf8(&mut bytes).as_bytes())
}

// Returns true for Unicode's bidirectional controls, and for its line and paragraph separators.
fn is_bidi_or_line_end(character: char) -> bool
    ensures { result ≡ is_bidi_or_line_end character }
{
    let code = character as u32;
    code == 0x61c
        || code == 0x200e
        || code == 0x200f
        || (0x2028 <= code && code < 0x202f)
        || (0x2066 <= code && code < 0x206a)
}

// Appends each byte by its number.
fn push_each(out: &mut Vec<u8>, bytes: &[u8]) -> Result<(), AllocError>
    ensures { OnOk result (out.new.items ≡ out.old.items ++ flat_map numbered bytes.now) }
{
    for byte in bytes {
        push_numbered(out, *byte)?;
    }
    Ok(())
}

// Appends a byte of a text that is not UTF-8.
#[tactic(auto, unfolding(crate::specs::Visible::visible_byte))]
fn push_byte(out: &mut Vec<u8>, byte: u8, quoted: bool) -> Result<(), AllocError>
    ensures { OnOk result (out.new.items ≡ out.old.items ++ visible_byte quoted byte) }
{
    if byte < 0x80 {
        push_char(out, char::from(byte), quoted)
    } else {
        push_numbered(out, byte)
    }
}
