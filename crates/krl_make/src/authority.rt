//! The authority of serials and key IDs that name none themselves.

ghost use Rattle.std.specs.Prelude.{◌≡◌};
ghost use Rattle.krl_make.specs.Making.{Returns, file_key, key_blob};

use run_faults::{Cause, FileFault, FileKey, Named, RunFault, keys_of};
use ssh_key::plain_blob;
use ssh_wire::Bytes;
use std::alloc::Global;

/// The value of `-s`, with the file whose first key is that of the authority.
pub type AuthorityOption<'a> = krl_job::AuthorityOption<Named<'a>>;

/// The blob of the first key of a file. Only that key is read.
pub fn first_key<'a>(alloc: Global, file: &'a Named<'a>) -> Result<Bytes, RunFault<'a>>
    ensures { Returns (λ blob. blob) (λ at. file.now.name ≡ at) (file_key file.now) result }
{
    let mut keys = keys_of(alloc, file);
    match keys.next() {
        Some(key) => key_blob(alloc, &key?),
        None => Err(RunFault::whole(file.name, Cause::File(FileFault::NoKeys))),
    }
}

// The blob of a plain key, or of the plain key of a certificate.
fn key_blob<'a>(alloc: Global, key: &FileKey<'a>) -> Result<Bytes, RunFault<'a>>
    ensures { Returns (λ blob. blob) (λ at. key.now.name ≡ at) (key_blob key.now) result }
{
    let any = key.read()?;
    match plain_blob(alloc, any.plain()) {
        Ok(blob) => Ok(Bytes::from_vec(blob)),
        Err(_) => Err(RunFault::whole(key.name, Cause::NoMemory)),
    }
}
