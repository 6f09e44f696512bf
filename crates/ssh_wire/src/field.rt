//! The values of whole fields: the numbers that they spell (RFC 4251 section 5), and arrays.

ghost use Rattle.std.specs.Prelude.{◌≡◌, length};
ghost use Rattle.ssh_wire.specs.Wire.{number_of};

use byteorder::{BigEndian, ByteOrder};

/// The value of a field that is one byte long.
pub fn byte_of(field: &[u8]) -> u8
    requires { length field.now ≡ 1 }
    ensures { result ≡ number_of field.now }
{
    field[0]
}

/// The number that a field four bytes long spells.
pub fn u32_of(field: &[u8]) -> u32
    requires { length field.now ≡ 4 }
    ensures { result ≡ number_of field.now }
{
    BigEndian::read_u32(field)
}

/// The number that a field eight bytes long spells.
pub fn u64_of(field: &[u8]) -> u64
    requires { length field.now ≡ 8 }
    ensures { result ≡ number_of field.now }
{
    BigEndian::read_u64(field)
}

/// The bytes of a field of this size, as an array.
pub fn array_of<const N: usize>(field: &[u8]) -> [u8; N]
    requires { length field.now ≡ N }
    ensures { result ≡ field.now }
{
    let mut array = [0; N];
    array.copy_from_slice(field);
    array
}
