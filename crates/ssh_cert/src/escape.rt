//! Printing text that others wrote.

ghost use Rattle.std.specs.Prelude.{◌≡◌, ◌++◌, OnOk};
ghost use Rattle.ssh_cert.specs.Escape.{escaped, escaped_byte, numbered};

use std::alloc::AllocError;

const DIGITS: &[u8; 16] = b"0123456789abcdef";

/// Appends the text with each byte below 0x20 and byte 0x7f as `\x` and two hexadecimal digits, so
/// that no line feed and no escape byte is printed. Bytes from 0x80 on are unchanged.
#[tactic(auto, unfolding(crate::specs::Escape::escaped))]
pub fn push_escaped(out: &mut Vec<u8>, text: &[u8]) -> Result<(), AllocError>
    ensures { OnOk result (out.new.items ≡ out.old.items ++ escaped text.now) }
{
    for byte in text {
        push_byte(out, *byte)?;
    }
    Ok(())
}

// Appends a byte as it is printed (ssh-keygen(1)).
#[tactic(auto, unfolding(crate::specs::Escape::escaped_byte))]
fn push_byte(out: &mut Vec<u8>, byte: u8) -> Result<(), AllocError>
    ensures { OnOk result (out.new.items ≡ out.old.items ++ escaped_byte byte) }
{
    if byte < 0x20 || byte == 0x7f {
        return push_numbered(out, byte);
    }
    out.push(byte)?;
    Ok(())
}

/// Appends a byte as `\x` and two hexadecimal digits.
pub fn push_numbered(out: &mut Vec<u8>, byte: u8) -> Result<(), AllocError>
    ensures { OnOk result (out.new.items ≡ out.old.items ++ numbered byte) }
{
    let digits = [
        b'\\',
        b'x',
        DIGITS[(byte / 16) as usize],
        DIGITS[(byte % 16) as usize],
    ];
    out.extend_from_slice(&digits)
}
