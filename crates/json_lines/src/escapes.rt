//! Escapes for the characters that a terminal may obey although JSON allows them in a string: DEL,
//! U+0080 to U+009F, and Unicode's bidirectional controls and line separators.

ghost use Rattle.std.specs.Prelude.{◌≡◌, ◌<◌, ◌++◌, false, IfOk, OnOk};
ghost use Rattle.std.specs.List.{list_any};
ghost use Rattle.std.specs.Char.{digit_char};
ghost use Rattle.json_lines.specs.Controls.{alone, bytes_of, code_of, ends, escaped_controls};
ghost use Rattle.json_lines.specs.Controls.{escaped_from, first_of, is_first, joins};
ghost use Rattle.json_lines.specs.Controls.{may_be_control, next_of, spelled, written};

use std::alloc::{AllocError, Global};

const DELETE: u8 = 0x7f;

/// The first bytes of a character, in UTF-8. They are held until it is known whether the character
/// is escaped.
#[derive(Clone, Copy)]
pub(crate) enum Held {
    /// None.
    Nothing,
    /// The first byte of U+0080 to U+00BF.
    Latin,
    /// The first byte of U+0600 to U+063F.
    Arabic,
    /// The first byte of U+2000 to U+2FFF.
    General,
    /// The first two bytes of U+2000 to U+203F.
    Marks,
    /// The first two bytes of U+2040 to U+207F.
    Isolates,
}

/// A JSON text with escapes for these characters. Most texts have none, and stay as they are.
pub fn without_controls(text: Vec<u8>) -> Result<Vec<u8>, AllocError>
    ensures { IfOk result (λ escaped. escaped.items ≡ escaped_controls text.items) }
{
    if !may_have_controls(&text) {
        return Ok(text);
    }
    let alloc = *text.allocator();
    let mut escaped = Vec::with_capacity(alloc, text.len())?;
    push_escaped(&mut escaped, &text)?;
    Ok(escaped)
}

// Whether a byte may begin one of these characters.
fn may_have_controls(text: &[u8]) -> bool
    ensures { result ≡ list_any may_be_control text.now }
{
    text.iter().any(|byte| *byte == DELETE || is_first(*byte))
}

// Whether a byte may begin one of these characters that is longer than one byte.
fn is_first(byte: u8) -> bool
    ensures { result ≡ is_first byte }
{
    byte == 0xc2 || byte == 0xd8 || byte == 0xe2
}

// Writes the text with escapes.
fn push_escaped(out: &mut Vec<u8>, text: &[u8]) -> Result<(), AllocError>
    ensures { OnOk result (out.new.items ≡ out.old.items ++ escaped_controls text.now) }
{
    let mut held = Held::Nothing;
    for byte in text {
        push_byte(out, held, *byte)?;
        held = next_of(held, *byte);
    }
    out.extend_from_slice(bytes_of(held))?;
    Ok(())
}

// Writes a byte, and before it the bytes that are held, or the escape of all of them.
fn push_byte(out: &mut Vec<u8>, held: Held, byte: u8) -> Result<(), AllocError>
    ensures { OnOk result (out.new.items ≡ out.old.items ++ written held byte) }
{
    if ends(held, byte) {
        return push_spelled(out, code_of(held, byte));
    }
    if joins(held, byte) {
        return Ok(());
    }
    out.extend_from_slice(bytes_of(held))?;
    push_alone(out, byte)
}

// Writes a byte without regard to those before it. A first byte is held.
fn push_alone(out: &mut Vec<u8>, byte: u8) -> Result<(), AllocError>
    ensures { OnOk result (out.new.items ≡ out.old.items ++ alone byte) }
{
    if byte == DELETE {
        return push_spelled(out, u16::from(byte));
    }
    if !is_first(byte) {
        out.push(byte)?;
    }
    Ok(())
}

// The bytes that are held.
fn bytes_of(held: Held) -> &'static [u8]
    ensures { result.now ≡ bytes_of held }
{
    match held {
        Held::Nothing => b"",
        Held::Latin => b"\xc2",
        Held::Arabic => b"\xd8",
        Held::General => b"\xe2",
        Held::Marks => b"\xe2\x80",
        Held::Isolates => b"\xe2\x81",
    }
}

// Whether a byte behind these ends a character that is escaped.
fn ends(held: Held, byte: u8) -> bool
    ensures { result ≡ ends held byte }
{
    match held {
        Held::Nothing | Held::General => false,
        Held::Latin => 0x80 <= byte && byte < 0xa0,
        Held::Arabic => byte == 0x9c,
        Held::Marks => byte == 0x8e || byte == 0x8f || (0xa8 <= byte && byte < 0xaf),
        Held::Isolates => 0xa6 <= byte && byte < 0xaa,
    }
}

// The number of that character.
fn code_of(held: Held, byte: u8) -> u16
    ensures { result ≡ code_of held byte }
{
    match held {
        Held::Nothing | Held::Latin | Held::General => u16::from(byte),
        Held::Arabic => 0x061c,
        Held::Marks => 0x1f80 + u16::from(byte),
        Held::Isolates => 0x1fc0 + u16::from(byte),
    }
}

// Whether a byte behind these is the second of such a character that is three bytes long.
fn joins(held: Held, byte: u8) -> bool
    ensures { result ≡ joins held byte }
{
    match held {
        Held::General => byte == 0x80 || byte == 0x81,
        Held::Nothing | Held::Latin | Held::Arabic | Held::Marks | Held::Isolates => false,
    }
}

// The bytes that are held after a byte behind these.
fn next_of(held: Held, byte: u8) -> Held
    ensures { result ≡ next_of held byte }
{
    if ends(held, byte) {
        return Held::Nothing;
    }
    if joins(held, byte) {
        return if byte == 0x80 {
            Held::Marks
        } else {
            Held::Isolates
        };
    }
    first_of(byte)
}

// The bytes that are held after a byte alone.
fn first_of(byte: u8) -> Held
    ensures { result ≡ first_of byte }
{
    if byte == 0xc2 {
        Held::Latin
    } else if byte == 0xd8 {
        Held::Arabic
    } else if byte == 0xe2 {
        Held::General
    } else {
        Held::Nothing
    }
}

// Writes the escape of the character with this number.
fn push_spelled(out: &mut Vec<u8>, code: u16) -> Result<(), AllocError>
    ensures { OnOk result (out.new.items ≡ out.old.items ++ spelled code) }
{
    out.extend_from_slice(b"\\u")?;
    out.push(digit(code / 4096))?;
    out.push(digit(code / 256 % 16))?;
    out.push(digit(code / 16 % 16))?;
    out.push(digit(code % 16))?;
    Ok(())
}

// A hexadecimal digit.
fn digit(value: u16) -> u8
    requires { value < 16 }
    ensures { result ≡ digit_char value }
{
    if value < 10 {
        b'0' + value as u8
    } else {
        b'a' + (value - 10) as u8
    }
}
