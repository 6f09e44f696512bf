//! The public key of a private container, which may be encrypted.

ghost use Rattle.ssh_wire.specs.Reading.{Answers, Lends};
ghost use Rattle.key_text.specs.ContainerReading.{decoded_at};
ghost use Rattle.key_text.specs.PublicHalf.{ReportsHalf, half_bytes, half_inside, public_half_at};

use crate::container::armour::{after_begin, body_size, joined};
use crate::container::parts::MAGIC;
use crate::private_fault::PrivateFault;
use base64::DecodeAllocError;
use base64::engine::general_purpose::STANDARD;
use ssh_wire::{Bytes, Cursor};
use std::alloc::Global;

/// The blob of the public key of a private container (OpenSSH's PROTOCOL.key). The blob is not
/// encrypted even if the private part is. The bytes after it are not read, and memory is not
/// overwritten: call `read_private` first, which does both for a container that is not encrypted.
#[tactic(auto, unfolding(crate::specs::PublicHalf::public_half_at))]
pub fn read_public_half(alloc: Global, text: &[u8]) -> Result<Bytes, PrivateFault>
    ensures exact { Answers ReportsHalf (λ blob. blob) result (public_half_at text.now) }
{
    let lines = after_begin(text).ok_or(PrivateFault::Armour)?;
    let size = body_size(lines).ok_or(PrivateFault::Armour)?;
    let body = joined(alloc, lines, size)?;
    let bytes = decoded(alloc, &body)?;
    let blob = half_of(&bytes)?;
    Ok(Bytes::from_vec(Vec::from_slice(alloc, blob)?))
}

// The bytes of the base64.
#[tactic(auto, unfolding(crate::specs::ContainerReading::decoded_at))]
fn decoded(alloc: Global, body: &[u8]) -> Result<Vec<u8>, PrivateFault>
    ensures exact { Answers ReportsHalf (λ bytes. bytes.items) result (decoded_at body.now) }
{
    STANDARD.decode(alloc, body).map_err(|error| match error {
        DecodeAllocError::DecodeError(_) => PrivateFault::Base64,
        DecodeAllocError::OutOfMemory => PrivateFault::NoMemory,
    })
}

// The blob in the bytes of a container.
#[tactic(auto, unfolding(crate::specs::PublicHalf::half_bytes, crate::specs::Container::magic))]
fn half_of(bytes: &[u8]) -> Result<&[u8], PrivateFault>
    ensures { Lends result (half_bytes bytes.now) }
{
    if !bytes.starts_with(MAGIC) {
        return Err(PrivateFault::Magic);
    }
    half_inside(&bytes[MAGIC.len()..])
}

// The blob in the bytes after the name of the format.
#[tactic(auto, unfolding(crate::specs::PublicHalf::half_inside, crate::specs::PublicHalf::first_string))]
fn half_inside(inside: &[u8]) -> Result<&[u8], PrivateFault>
    ensures { Lends result (half_inside inside.now) }
{
    let mut cursor = Cursor::new(inside);
    let _cipher = cursor.string()?;
    let _derivation = cursor.string()?;
    let _options = cursor.string()?;
    let count = cursor.u32()?;
    if count != 1 {
        return Err(PrivateFault::KeyCount);
    }
    Ok(cursor.string()?)
}
