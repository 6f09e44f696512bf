//! The blob of a public key.

ghost use Rattle.std.specs.Prelude.{◌≡◌, IfOk};
ghost use Rattle.ssh_key.specs.Key.{blob_of};

use crate::key::PublicKey;
use ssh_wire::put_string;
use std::alloc::{AllocError, Global};

/// The blob of a key: the string of the type name (RFC 4251 section 5), and the public fields. For
/// a key that was read, it is the blob that it was read from. Fails only if an allocation fails.
pub fn plain_blob(alloc: Global, key: &PublicKey) -> Result<Vec<u8>, AllocError>
    ensures { IfOk result (λ blob. blob.items ≡ blob_of key.now) }
{
    let mut blob = Vec::new(alloc);
    put_string(&mut blob, key.kind().name().as_bytes())?;
    blob.extend_from_slice(key.public_fields())?;
    Ok(blob)
}
