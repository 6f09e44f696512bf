//! Reading private containers (OpenSSH's PROTOCOL.key).

ghost use Rattle.std.specs.Prelude.{◌≡◌, ◌≢◌, ◌≤◌, ℕ, List, Err, IfErr, IfOk, None, Ok, length};
ghost use Rattle.std.specs.Prelude.{replicate};
ghost use Rattle.base64.specs.Decode.{decoded_estimate};
ghost use Rattle.key_text.specs.Armour.{armour_at};
ghost use Rattle.key_text.specs.Container.{IsContainer, IsReportedPrivateFault};
ghost use Rattle.key_text.specs.ContainerReading.{GivesPrivate, body_at, bytes_at, private_at};
ghost use Rattle.key_text.specs.declared.private_fault.PrivateFault.TheVariants.{NoMemory};

use crate::private_fault::PrivateFault;
use base64::decoded_len_estimate;
use base64::engine::general_purpose::STANDARD;
use ssh_wire::Bytes;
use std::alloc::Global;

mod armour;
mod half;
mod list;
mod padding;
mod parts;
mod secrets;

pub use armour::is_container;
use armour::{after_begin, body_size, joined};
pub use half::read_public_half;
use parts::{Opened, read_bytes};

/// The public contents of a private container.
#[derive(Drop)]
pub struct Private {
    /// The blob of the public key.
    pub blob: Bytes,
    /// The comment, which may be empty.
    pub comment: Bytes,
}

/// Reads the public key and the comment of a private key file (OpenSSH's PROTOCOL.key) that has one
/// key and is not encrypted.
///
/// The text is the base64 of the container, in lines of any length, between the line that begins a
/// container and the first line that ends one. Blanks and carriage returns at the end of a line are
/// skipped, and the text after the end line is not read. The private part must be of the same kind
/// as the public key and have its public fields. The private numbers themselves are not checked.
///
/// Faults are reported in the order of the fields. One is reported before the list is read:
/// `Trailing`, bytes after the private list. Memory for the decoded bytes is allocated before they
/// are checked, so `NoMemory` may be returned instead of any result but `Armour`.
///
/// Private bytes are copied only into the decoded container. The memory that held them is
/// overwritten before it is freed.
pub fn read_private(alloc: Global, text: &[u8]) -> Result<Private, PrivateFault>
    // Reading returns only a container.
    ensures found { IfOk result (λ private. IsContainer text.now private.blob private.comment) }
    // Each container is read, unless an allocation fails.
    ensures only { (blob comment : List ℕ) → IsContainer text.now blob comment
        → GivesPrivate result (Ok (record { blob = blob; comment = comment })) }
    // The fault is the first one of the text, unless an allocation fails.
    ensures fault { IfErr result (λ fault. IsReportedPrivateFault text.now fault) }
    // The answer is that of `private_at`, for proofs that compute with it.
    ensures exact { GivesPrivate result (private_at text.now) }
{
    read_content(alloc, text)
}

// Reads a container, and overwrites its joined lines.
#[tactic(auto, unfolding(crate::specs::ContainerReading::private_at))]
fn read_content(alloc: Global, text: &[u8]) -> Result<Private, PrivateFault>
    ensures exact { GivesPrivate result (private_at text.now) }
    ensures armour { result ≡ Err NoMemory → armour_at text.now ≢ None }
{
    let lines = after_begin(text).ok_or(PrivateFault::Armour)?;
    let size = body_size(lines).ok_or(PrivateFault::Armour)?;
    let mut body = joined(alloc, lines, size)?;
    let private = read_body(alloc, &body);
    overwrite(&mut body);
    private
}

// The container with this base64.
fn read_body(alloc: Global, body: &[u8]) -> Result<Private, PrivateFault>
    ensures { GivesPrivate result (body_at body.now) }
{
    let mut bytes = vec![in alloc; 0; decoded_len_estimate(body.len())]?;
    let private = read_decoded(alloc, body, &mut bytes);
    overwrite(&mut bytes);
    private
}

// The container with this base64, which is decoded into these bytes.
fn read_decoded(alloc: Global, body: &[u8], bytes: &mut [u8]) -> Result<Private, PrivateFault>
    requires { decoded_estimate (length body.now) ≤ length bytes.old }
    ensures { GivesPrivate result (body_at body.now) }
{
    match STANDARD.decode_slice_unchecked(body, bytes) {
        Ok(size) => read_owned(alloc, &bytes[..size]),
        Err(_) => Err(PrivateFault::Base64),
    }
}

// The container that has these bytes, with a copy of its public contents.
fn read_owned(alloc: Global, bytes: &[u8]) -> Result<Private, PrivateFault>
    ensures { GivesPrivate result (bytes_at bytes.now) }
{
    let Opened { blob, comment } = read_bytes(bytes)?;
    Ok(Private {
        blob: Bytes::from_vec(Vec::from_slice(alloc, blob)?),
        comment: Bytes::from_vec(Vec::from_slice(alloc, comment)?),
    })
}

// Writes zeros over bytes.
fn overwrite(bytes: &mut [u8])
    ensures { bytes.new ≡ replicate (length bytes.old) 0 }
{
    bytes.fill(0);
}
