//! Appending fields to a vector (RFC 4251 section 5). Each function reserves the room before it
//! writes the first byte, so an error leaves the vector unchanged. An allocation fails only if the
//! vector lacks the room.

ghost use Rattle.std.specs.Prelude.{◌≡◌, ◌+◌, ◌∷◌, ◌++◌, ◌<◌, ◌≤◌, ◌^◌, [], length};
ghost use Rattle.std.specs.Prelude.{OnErr, vec_capacity, vec_len};
ghost use Rattle.ssh_wire.specs.Put.{Appends};
ghost use Rattle.ssh_wire.specs.Wire.{IsMagnitude, complement, mpint, number, string};

use byteorder::{BigEndian, ByteOrder};
use std::alloc::AllocError;

/// Appends a `byte`. If an allocation fails, the vector is unchanged.
pub fn put_byte(out: &mut Vec<u8>, byte: u8) -> Result<(), AllocError>
    ensures appends { Appends result out.old.items out.new.items (byte ∷ []) }
    ensures full { OnErr result (vec_capacity out.old ≤ vec_len out.old) }
{
    out.push(byte)?;
    Ok(())
}

/// Appends a `uint32`: four bytes, the highest first. If an allocation fails, the vector is
/// unchanged.
pub fn put_u32(out: &mut Vec<u8>, n: u32) -> Result<(), AllocError>
    ensures appends { Appends result out.old.items out.new.items (number 4 n) }
    ensures full { OnErr result (vec_capacity out.old < vec_len out.old + 4) }
{
    out.extend_from_slice(&four_bytes(n))
}

/// Appends a `uint64`: eight bytes, the highest first. If an allocation fails, the vector is
/// unchanged.
#[tactic(auto, unfolding(crate::specs::Wire::number))]
pub fn put_u64(out: &mut Vec<u8>, n: u64) -> Result<(), AllocError>
    ensures appends { Appends result out.old.items out.new.items (number 8 n) }
    ensures full { OnErr result (vec_capacity out.old < vec_len out.old + 8) }
{
    let mut bytes = [0; 8];
    BigEndian::write_u64(&mut bytes, n);
    out.extend_from_slice(&bytes)
}

/// Appends a `string` of at most 2^32 - 1 bytes: four bytes of length, and the bytes. If an
/// allocation fails, the vector is unchanged.
#[tactic(auto, unfolding(crate::specs::Wire::string))]
pub fn put_string(out: &mut Vec<u8>, bytes: &[u8]) -> Result<(), AllocError>
    requires { length bytes.now < 2 ^ 32 }
    ensures appends { Appends result out.old.items out.new.items (string bytes.now) }
    ensures full { OnErr result
        (vec_capacity out.old < vec_len out.old + 4 + length bytes.now) }
{
    out.reserve(4 + bytes.len())?;
    out.extend_from_slice(&four_bytes(bytes.len() as u32))?;
    out.extend_from_slice(bytes)
}

/// Appends an `mpint` that is not negative, given by its magnitude: the highest byte first, no
/// leading zero byte, empty for zero. A zero byte is put in front if the top bit is set; with it,
/// the string has at most 2^32 - 1 bytes. If an allocation fails, the vector is unchanged.
#[tactic(auto, unfolding(crate::specs::Wire::complement, crate::specs::Wire::mpint, crate::specs::Wire::string))]
pub fn put_mpint(out: &mut Vec<u8>, magnitude: &[u8]) -> Result<(), AllocError>
    requires magnitude { IsMagnitude magnitude.now }
    requires fits { length (complement magnitude.now) < 2 ^ 32 }
    ensures appends { Appends result out.old.items out.new.items (mpint magnitude.now) }
    ensures full { OnErr result
        (vec_capacity out.old < vec_len out.old + 4 + length (complement magnitude.now)) }
{
    match magnitude {
        [128..=255, ..] => put_after_zero(out, magnitude),
        _ => put_string(out, magnitude),
    }
}

// Appends the `string` of a zero byte and the bytes.
#[tactic(auto, unfolding(crate::specs::Wire::string))]
fn put_after_zero(out: &mut Vec<u8>, bytes: &[u8]) -> Result<(), AllocError>
    requires { length bytes.now + 1 < 2 ^ 32 }
    ensures appends { Appends result out.old.items out.new.items (string (0 ∷ bytes.now)) }
    ensures full { OnErr result
        (vec_capacity out.old < vec_len out.old + 5 + length bytes.now) }
{
    out.reserve(5 + bytes.len())?;
    out.extend_from_slice(&four_bytes(1 + bytes.len() as u32))?;
    out.push(0)?;
    out.extend_from_slice(bytes)
}

// A number in four bytes, the highest first.
#[tactic(auto, unfolding(crate::specs::Wire::number))]
fn four_bytes(n: u32) -> [u8; 4]
    ensures { result ≡ number 4 n }
{
    let mut bytes = [0; 4];
    BigEndian::write_u32(&mut bytes, n);
    bytes
}
