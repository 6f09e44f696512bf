//! The private fields of a key, with the public ones among them. A cursor is not used again after a
//! fault.

ghost use Rattle.std.specs.Prelude.{◌≡◌, ◌++◌, ◌≤◌, ℕ, List, length};
ghost use Rattle.std.specs.Str.{bytes_eq};
ghost use Rattle.ssh_wire.specs.Reading.{Gives};
ghost use Rattle.ssh_key.specs.declared.kind.Kind.{Kind as TheKind};
ghost use Rattle.key_text.specs.ContainerReading.{HasRows, Skips, part_of, passed_at, same_at};

use crate::private_fault::PrivateFault;
use ssh_key::{KeyFault, Kind, PublicKey};
use ssh_wire::Cursor;

// The bytes of the private part of an Ed25519 key.
const ED25519_SECRET_SIZE: usize = 64;

// The encoding of a field.
#[derive(Clone, Copy)]
enum Spelling {
    // A multiple precision integer.
    Number,
    // A string.
    Text,
    // A byte.
    Byte,
}

/// Reads the fields of a key of this kind, and returns true if the public ones are those of the
/// key.
pub fn read_secrets(key: &PublicKey, cursor: &mut Cursor) -> Result<bool, PrivateFault>
    ensures { Gives (λ same. same) result cursor.new
        (same_at key.now.kind key.now.fields cursor.old) }
{
    use Spelling::{Byte, Number, Text};
    let public = key.public_fields();
    match key.kind() {
        Kind::Rsa => read_rsa(public, cursor),
        Kind::Dsa => read_rows(public, cursor, &[Number, Number, Number, Number], &[Number]),
        Kind::Ecdsa256 => read_rows(public, cursor, &[Text, Text], &[Number]),
        Kind::Ecdsa384 => read_rows(public, cursor, &[Text, Text], &[Number]),
        Kind::Ecdsa521 => read_rows(public, cursor, &[Text, Text], &[Number]),
        Kind::Ed25519 => read_ed25519(public, cursor),
        Kind::EcdsaSk => read_rows(public, cursor, &[Text, Text, Text], &[Byte, Text, Text]),
        Kind::Ed25519Sk => read_rows(public, cursor, &[Text, Text], &[Byte, Text, Text]),
    }
}

// The modulus, the exponent, and four private numbers. The blob has the exponent first.
#[tactic(auto, unfolding(ssh_wire::specs::Rows::table_at, crate::specs::ContainerReading::passed_at, crate::specs::ContainerReading::same_at))]
fn read_rsa(public: &[u8], cursor: &mut Cursor) -> Result<bool, PrivateFault>
    ensures { Gives (λ same. same) result cursor.new (same_at Kind.Rsa public.now cursor.old) }
{
    let modulus = pass_over(&[Spelling::Number], cursor)?;
    let exponent = pass_over(&[Spelling::Number], cursor)?;
    let _private = pass_over(&[Spelling::Number; 4], cursor)?;
    Ok(is_joined(public, exponent, modulus))
}

// The public bytes, and 64 private ones.
#[tactic(auto, unfolding(ssh_wire::specs::Rows::table_at, crate::specs::ContainerReading::passed_at, crate::specs::ContainerReading::same_at))]
fn read_ed25519(public: &[u8], cursor: &mut Cursor) -> Result<bool, PrivateFault>
    ensures { Gives (λ same. same) result cursor.new (same_at Kind.Ed25519 public.now cursor.old) }
{
    let among = pass_over(&[Spelling::Text], cursor)?;
    let private = cursor.string()?;
    if private.len() != ED25519_SECRET_SIZE {
        return Err(PrivateFault::Key(KeyFault::Length));
    }
    Ok(among == public)
}

// The public fields, in the order of the blob, and then the private ones.
fn read_rows(
    public: &[u8],
    cursor: &mut Cursor,
    first: &[Spelling],
    others: &[Spelling],
) -> Result<bool, PrivateFault>
    ensures { (kind : TheKind) → HasRows kind first.now others.now
        → Gives (λ same. same) result cursor.new (same_at kind public.now cursor.old) }
{
    let among = pass_over(first, cursor)?;
    let _private = pass_over(others, cursor)?;
    Ok(among == public)
}

// The bytes of fields with these encodings.
fn pass_over<'a>(row: &[Spelling], cursor: &mut Cursor<'a>) -> Result<&'a [u8], PrivateFault>
    ensures { Gives (λ read. read.now) result cursor.new (passed_at row.now cursor.old) }
{
    let bytes = cursor.rest();
    for spelling in row {
        pass(*spelling, cursor)?;
    }
    Ok(read_part(bytes, cursor.rest()))
}

// Skips a field with this encoding.
fn pass(spelling: Spelling, cursor: &mut Cursor) -> Result<(), PrivateFault>
    ensures { Skips (part_of spelling) result cursor.old cursor.new }
{
    match spelling {
        Spelling::Number => {
            cursor.mpint()?;
        }
        Spelling::Text => {
            cursor.string()?;
        }
        Spelling::Byte => {
            cursor.byte()?;
        }
    }
    Ok(())
}

// The part of the bytes that was read, given the rest.
fn read_part<'a>(bytes: &'a [u8], rest: &[u8]) -> &'a [u8]
    requires { length rest.now ≤ length bytes.now }
    ensures { (read : List ℕ) → bytes.now ≡ read ++ rest.now → result.now ≡ read }
{
    &bytes[..bytes.len() - rest.len()]
}

// Returns true if the bytes are these two parts, joined.
fn is_joined(bytes: &[u8], first: &[u8], second: &[u8]) -> bool
    ensures { result ≡ bytes_eq (first.now ++ second.now) bytes.now }
{
    match bytes.strip_prefix(first) {
        Some(rest) => rest == second,
        None => false,
    }
}
