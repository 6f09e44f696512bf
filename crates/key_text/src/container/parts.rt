//! The bytes of a container, field by field. A cursor is not used again after a fault.

ghost use Rattle.std.specs.Prelude.{◌≡◌, [], IfOk, Ok};
ghost use Rattle.ssh_wire.specs.Reading.{Gives};
ghost use Rattle.ssh_wire.specs.Rows.{table_at};
ghost use Rattle.ssh_key.specs.KeyReading.{key_at};
ghost use Rattle.key_text.specs.Container.{is_plain, outer};
ghost use Rattle.key_text.specs.ContainerReading.{bytes_at, inside_at, plain_values};
ghost use Rattle.key_text.specs.declared.private_fault.PrivateFault.TheVariants.{Wire};

use crate::container::list::read_list;
use crate::private_fault::PrivateFault;
use ssh_key::{PublicKey, read_key};
use ssh_wire::Cursor;
use std::marker::Model;

/// The name of the format, and a zero byte.
pub const MAGIC: &[u8] = b"openssh-key-v1\0";

// The cipher and the derivation of a container that is not encrypted.
const NONE: &[u8] = b"none";

/// The public contents of a container, borrowed from its bytes.
#[derive(Drop)]
pub struct Opened<'a> {
    pub blob: &'a [u8],
    pub comment: &'a [u8],
}

impl<'a> Model for Opened<'a> {
    ghost use Rattle.key_text.specs.ContainerReading.{Opened};

    ghost Value = { Opened };

    ghost view = { λ opened. record { blob = opened.blob.now; comment = opened.comment.now } };
}

// The public key with its blob, and the private list.
#[derive(Drop)]
struct Parts<'a> {
    blob: &'a [u8],
    key: PublicKey<'a>,
    list: &'a [u8],
}

/// The container that has these bytes.
#[tactic(auto, unfolding(crate::specs::ContainerReading::bytes_at, crate::specs::Container::magic))]
pub fn read_bytes<'a>(bytes: &'a [u8]) -> Result<Opened<'a>, PrivateFault>
    ensures { result ≡ bytes_at bytes.now }
{
    if !bytes.starts_with(MAGIC) {
        return Err(PrivateFault::Magic);
    }
    read_inside(&bytes[MAGIC.len()..])
}

// The bytes after the name of the format.
#[tactic(auto, unfolding(crate::specs::ContainerReading::inside_at))]
fn read_inside<'a>(inside: &'a [u8]) -> Result<Opened<'a>, PrivateFault>
    ensures { result ≡ inside_at inside.now }
{
    let mut cursor = Cursor::new(inside);
    let Parts { blob, key, list } = read_parts(&mut cursor)?;
    if !cursor.at_end() {
        return Err(PrivateFault::Trailing);
    }
    let comment = read_list(&key, list)?;
    Ok(Opened { blob, comment })
}

// The fields up to the private list.
#[tactic(auto, unfolding(ssh_wire::specs::Rows::table_at))]
fn read_parts<'a>(cursor: &mut Cursor<'a>) -> Result<Parts<'a>, PrivateFault>
    ensures read { Gives (λ parts. plain_values parts.blob.now parts.list.now) result cursor.new
        (table_at Wire outer [] cursor.old) }
    ensures key { IfOk result (λ parts. key_at parts.blob.now ≡ Ok parts.key) }
{
    let cipher = cursor.string()?;
    let derivation = cursor.string()?;
    let options = cursor.string()?;
    if !is_plain(cipher, derivation, options) {
        return Err(PrivateFault::Encrypted);
    }
    let count = cursor.u32()?;
    if count != 1 {
        return Err(PrivateFault::KeyCount);
    }
    let blob = cursor.string()?;
    let key = read_key(blob)?;
    let list = cursor.string()?;
    Ok(Parts { blob, key, list })
}

// Returns true if a container with this cipher, derivation and options is not encrypted.
fn is_plain(cipher: &[u8], derivation: &[u8], options: &[u8]) -> bool
    ensures { result ≡ is_plain cipher.now derivation.now options.now }
{
    cipher == NONE && derivation == NONE && options.is_empty()
}
