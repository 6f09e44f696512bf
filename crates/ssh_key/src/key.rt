//! Public keys, read from their blobs.

ghost use Rattle.std.specs.Prelude.{◌≡◌, ◌≤◌, ◌+◌, length};
ghost use Rattle.ssh_wire.specs.Reading.{Gives, Reads};
ghost use Rattle.ssh_wire.specs.Wire.{IsBytes, string};
ghost use Rattle.ssh_key.specs.Key.{IsKey, blob_of, longest_blob};
ghost use Rattle.ssh_key.specs.KeyReading.{key_at, kind_at, public_at};
ghost use Rattle.ssh_key.specs.Kind.{bit_count, short_name_of, type_name};
ghost use Rattle.ssh_key.specs.Fields.{IsWithin, bits_of_size};

use crate::fault::KeyFault;
use crate::fields::{Size, read_size};
use crate::kind::Kind;
use ssh_wire::Cursor;
use std::marker::Model;

// The length of the longest blob that is read, in bytes.
const LONGEST_BLOB: usize = 65_536;

/// A public key, borrowed from its blob or from a certificate. Each value of this type is a valid
/// key: see `has_blob`.
#[derive(Drop)]
pub struct PublicKey<'a> {
    kind: Kind,
    bits: u32,
    fields: &'a [u8],
}

impl<'a> Model for PublicKey<'a> {
    ghost use Rattle.std.specs.Prelude.{◌≡◌, Ok};
    ghost use Rattle.ssh_key.specs.Key.{PublicKey, blob_of};
    ghost use Rattle.ssh_key.specs.KeyReading.{IsRead};

    ghost Value = { PublicKey };

    ghost view = { λ key. record { kind = key.kind; fields = key.fields.now; bits = key.bits } };

    ghost invariant = { λ key.
        IsRead (record { kind = key.kind; fields = key.fields.now; bits = key.bits }) };
}

impl<'a> PublicKey<'a> {
    /// The kind of the key.
    pub fn kind(&self) -> Kind
        ensures { result ≡ self.now.kind }
    {
        self.kind
    }

    /// The size of the key in bits, as listings print it: that of the modulus of an RSA key, of the
    /// prime of a DSA key, and otherwise the one size of the kind.
    pub fn bits(&self) -> u32
        ensures { result ≡ self.now.bits }
    {
        self.bits
    }

    /// The name of the key's kind in the listings of ssh-keygen(1).
    pub fn short_name(&self) -> &'static str
        ensures { result.now ≡ short_name_of self.now.kind }
    {
        Kind::short_name(self.kind)
    }

    /// The bytes of the blob after the string of the type name.
    pub fn public_fields(&self) -> &'a [u8]
        ensures { result.now ≡ self.now.fields }
    {
        self.fields
    }

    /// The value is a valid key: the string of its type name and its public fields are its blob.
    /// Does nothing.
    pub fn has_blob(&self)
        ensures { IsKey (blob_of self.now) self.now }
    {
        are_bytes(self.fields);
    }
}

/// The key that a blob spells (RFC 4253 section 6.6, RFC 5656, RFC 8709, PROTOCOL.u2f): the string
/// of the type name of a plain key, and the public fields of that kind, in at most 65,536 bytes.
/// Each number is above zero and spelled in as few bytes as possible, so a key has one blob. Does
/// not allocate: the key is borrowed from the blob.
///
/// If there are several faults, the first is reported: `TooLong` before all others, then those of
/// the type name and of each field, in the order in which they come, and `Trailing` last.
#[tactic(auto, unfolding(crate::specs::KeyReading::key_at))]
pub fn read_key<'a>(blob: &'a [u8]) -> Result<PublicKey<'a>, KeyFault>
    // The key that is spelled (`laws::read_where_spelled`), otherwise the first fault
    // (`laws::refused_by_first_fault`).
    ensures exact { result ≡ key_at blob.now }
{
    if blob.len() > LONGEST_BLOB {
        return Err(KeyFault::TooLong);
    }
    let mut cursor = Cursor::new(blob);
    let kind = read_kind(&mut cursor)?;
    let key = read_fields(kind, &mut cursor)?;
    if !cursor.at_end() {
        return Err(KeyFault::Trailing);
    }
    Ok(key)
}

// The kind by the type name.
#[tactic(auto, unfolding(crate::specs::KeyReading::kind_at))]
fn read_kind(cursor: &mut Cursor) -> Result<Kind, KeyFault>
    ensures { Gives (λ kind. kind) result cursor.new (kind_at cursor.old) }
{
    let name = cursor.string()?;
    Kind::of_name(name).ok_or(KeyFault::UnknownType)
}

/// Reads the public fields of a key of this kind from the front of the bytes, without the string of
/// the type name, as they are in a certificate (OpenSSH's PROTOCOL.certkeys). The bytes after them
/// are left. An error takes nothing. Does not allocate.
///
/// If there are several faults, the first is reported: those of each field, in the order in which
/// they come, and then `TooLong` if the blob of the type name and these fields would be longer than
/// 65,536 bytes.
#[tactic(auto, unfolding(crate::specs::KeyReading::public_at))]
pub fn read_fields<'a>(kind: Kind, cursor: &mut Cursor<'a>) -> Result<PublicKey<'a>, KeyFault>
    // The key whose public fields are at the front (`laws::fields_read_where_spelled`), otherwise
    // the first fault, and then nothing is taken (`laws::fields_refused_by_first_fault`).
    ensures exact { Reads (λ key. key) result cursor.old cursor.new (public_at kind cursor.old) }
{
    let bytes = cursor.rest();
    are_bytes(bytes);
    let mut ahead = Cursor::new(bytes);
    let size = read_size(kind, &mut ahead)?;
    let fields = &bytes[..bytes.len() - ahead.rest().len()];
    if fields.len() > longest_fields(kind) {
        return Err(KeyFault::TooLong);
    }
    let key = PublicKey {
        kind,
        bits: bits(size),
        fields,
    };
    *cursor = ahead;
    Ok(key)
}

// The elements of a slice of bytes are bytes. Does nothing.
fn are_bytes(bytes: &[u8])
    ensures { IsBytes bytes.now }
{}

// How many bytes the public fields of this kind take at most in the longest blob.
fn longest_fields(kind: Kind) -> usize
    ensures { length (string (type_name kind)) + result ≡ longest_blob }
{
    LONGEST_BLOB - 4 - kind.name().len()
}

// The size of a key in bits.
fn bits(size: Size) -> u32
    requires { IsWithin size LONGEST_BLOB }
    ensures { result ≡ bits_of_size size.entry }
{
    match size {
        Size::Bits(bits) => bits,
        Size::Magnitude(bytes) => bit_count(bytes),
    }
}

// The number of bits of a number, given by its magnitude.
fn bit_count(magnitude: &[u8]) -> u32
    requires { length magnitude.now ≤ LONGEST_BLOB }
    ensures { result ≡ bit_count magnitude.now }
{
    match magnitude {
        [] => 0,
        [first, ..] => 8 * magnitude.len() as u32 - first.leading_zeros(),
    }
}
