//! Reading fields from the front of bytes.

ghost use Rattle.std.specs.Prelude.{◌≡◌, ◌↔◌, ◌∷◌, ◌++◌, [], IfOk, IsTrue};
ghost use Rattle.ssh_wire.specs.Reading.{Lends, Reads, magnitude_of, mpint_at, number_at};
ghost use Rattle.ssh_wire.specs.Reading.{string_at};
ghost use Rattle.ssh_wire.specs.Wire.{IsMagnitude, mpint, number, string};

use crate::fault::WireFault;
use byteorder::{BigEndian, ByteOrder};
use std::marker::Model;

/// The bytes that are left to read. Each read takes a field from their front (RFC 4251 section 5).
/// An error takes nothing. No read allocates: strings are borrowed from the bytes.
#[derive(Drop)]
pub struct Cursor<'a> {
    left: &'a [u8],
}

impl<'a> Model for Cursor<'a> {
    ghost use Rattle.std.specs.Prelude.{ℕ, List};
    ghost use Rattle.ssh_wire.specs.Wire.{IsBytes};

    ghost Value = { List ℕ };

    ghost view = { λ cursor. cursor.left.now };

    ghost invariant = { λ cursor. IsBytes cursor.left.now };
}

impl<'a> Cursor<'a> {
    /// Starts at the first byte.
    pub fn new(bytes: &'a [u8]) -> Self
        ensures { result ≡ bytes.entry.now }
    {
        Cursor { left: bytes }
    }

    /// Reads a `byte`. Returns `Short` if none is left.
    #[tactic(auto, unfolding(crate::specs::Reading::number_at))]
    pub fn byte(&mut self) -> Result<u8, WireFault>
        ensures exact { Reads (λ n. n) result self.old self.new (number_at 1 self.old) }
        ensures found { IfOk result (λ n. self.old ≡ n ∷ self.new) }
    {
        let [first, rest @ ..] = self.left else {
            return Err(WireFault::Short);
        };
        self.left = rest;
        Ok(*first)
    }

    /// Reads a `uint32`: four bytes, the highest first. Returns `Short` if fewer are left.
    #[tactic(auto, unfolding(crate::specs::Reading::number_at))]
    pub fn u32(&mut self) -> Result<u32, WireFault>
        ensures exact { Reads (λ n. n) result self.old self.new (number_at 4 self.old) }
        ensures found { IfOk result (λ n. self.old ≡ number 4 n ++ self.new) }
    {
        if self.left.len() < 4 {
            return Err(WireFault::Short);
        }
        let n = BigEndian::read_u32(self.left);
        self.left = &self.left[4..];
        Ok(n)
    }

    /// Reads a `uint64`: eight bytes, the highest first. Returns `Short` if fewer are left.
    #[tactic(auto, unfolding(crate::specs::Reading::number_at))]
    pub fn u64(&mut self) -> Result<u64, WireFault>
        ensures exact { Reads (λ n. n) result self.old self.new (number_at 8 self.old) }
        ensures found { IfOk result (λ n. self.old ≡ number 8 n ++ self.new) }
    {
        if self.left.len() < 8 {
            return Err(WireFault::Short);
        }
        let n = BigEndian::read_u64(self.left);
        self.left = &self.left[8..];
        Ok(n)
    }

    /// Reads a `string`: four bytes of length, and that many bytes, which are borrowed. Returns
    /// `Short` if fewer than four bytes are left, or fewer than the length says.
    #[tactic(auto, unfolding(crate::specs::Reading::number_at, crate::specs::Reading::front_at, crate::specs::Reading::string_at))]
    pub fn string(&mut self) -> Result<&'a [u8], WireFault>
        ensures exact { Reads (λ text. text.now) result self.old self.new (string_at self.old) }
        ensures found { IfOk result (λ text. self.old ≡ string text.now ++ self.new) }
    {
        if self.left.len() < 4 {
            return Err(WireFault::Short);
        }
        let size = BigEndian::read_u32(self.left) as usize;
        let after = &self.left[4..];
        if after.len() < size {
            return Err(WireFault::Short);
        }
        let (string, rest) = after.split_at(size);
        self.left = rest;
        Ok(string)
    }

    /// Reads an `mpint` that is not negative: its magnitude, the highest byte first, with no
    /// leading zero byte. Zero gives the empty slice. Returns `Short` as `string` does; then
    /// `Negative` if the first byte is 128 or more; then `NotShortest` if it is 0 and the next byte
    /// is below 128 or missing.
    #[tactic(auto, unfolding(crate::specs::Reading::mpint_at))]
    pub fn mpint(&mut self) -> Result<&'a [u8], WireFault>
        ensures exact { Reads (λ magnitude. magnitude.now) result self.old self.new
            (mpint_at self.old) }
        ensures found { IfOk result (λ magnitude.
            (self.old ≡ mpint magnitude.now ++ self.new) × IsMagnitude magnitude.now) }
    {
        let before = self.left;
        let string = self.string()?;
        let magnitude = magnitude(string);
        if magnitude.is_err() {
            self.left = before;
        }
        magnitude
    }

    /// The bytes that are left.
    pub fn rest(&self) -> &'a [u8]
        ensures { result.now ≡ self.now }
    {
        self.left
    }

    /// Whether no byte is left.
    pub fn at_end(&self) -> bool
        ensures { IsTrue result ↔ (self.now ≡ []) }
    {
        self.left.is_empty()
    }
}

// The magnitude that two's complement spells.
#[tactic(auto, unfolding(crate::specs::Reading::magnitude_of))]
fn magnitude(bytes: &[u8]) -> Result<&[u8], WireFault>
    ensures { Lends result (magnitude_of bytes.now) }
{
    match bytes {
        [] => Ok(bytes),
        [0, rest @ ..] => match rest {
            [128..=255, ..] => Ok(rest),
            _ => Err(WireFault::NotShortest),
        },
        [0..=127, ..] => Ok(bytes),
        _ => Err(WireFault::Negative),
    }
}
