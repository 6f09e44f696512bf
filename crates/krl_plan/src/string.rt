//! Strings whose length is known only after their bytes are written.

ghost use Rattle.std.specs.Prelude.{◌≡◌, ◌+◌, ◌-◌, ◌^◌, ◌<◌, ◌≤◌, ◌∷◌, ◌++◌, IfOk, length, take};
ghost use Rattle.std.specs.Prelude.{drop};
ghost use Rattle.std.specs.Vec.{vec_len};
ghost use Rattle.ssh_wire.specs.Wire.{number, string};

use byteorder::{BigEndian, ByteOrder};
use ssh_wire::{put_byte, put_u32};
use std::alloc::AllocError;

/// Appends a type byte and four zero bytes for the length of the string that follows. Returns the
/// position of the four bytes, for `end_string`.
pub fn begin_string(out: &mut Vec<u8>, type_byte: u8) -> Result<usize, AllocError>
    ensures { IfOk result (λ at. (at ≡ length out.old.items + 1)
        × (out.new.items ≡ out.old.items ++ type_byte ∷ number 4 0)) }
{
    put_byte(out, type_byte)?;
    let at = out.len();
    put_u32(out, 0)?;
    Ok(at)
}

/// Completes a string (RFC 4251 section 5) that consists of the four bytes at `at`, which are
/// there, and all bytes after them: the length, below 2^32, is written into the four.
#[tactic(auto, unfolding(ssh_wire::specs::Wire::string, ssh_wire::specs::Wire::number))]
pub fn end_string(out: &mut Vec<u8>, at: usize)
    requires within { at + 4 ≤ vec_len out.old }
    requires fits { vec_len out.old - at < 2 ^ 32 }
    ensures { out.new.items ≡ take at out.old.items ++ string (drop (at + 4) out.old.items) }
{
    let size = (out.len() - at - 4) as u32;
    BigEndian::write_u32(&mut out[at..at + 4], size);
}
