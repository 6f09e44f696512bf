//! The bytes of open files and of standard input.

ghost use Rattle.std.specs.Prelude.{◌≡◌, ◌+◌, ◌<◌, ℕ, List, [], Option, true, false, not, length};
ghost use Rattle.std.specs.Prelude.{IfOk, IfSome, OnErr, OnOk, vec_capacity, vec_len};
ghost use Rattle.std.specs.Io.KnownBytes.{Consumes};
ghost use Rattle.key_text.specs.Armour.{begins_container};
ghost use Rattle.krl_audit.specs.Audit.{content_of};
ghost use Rattle.audit_run.specs.Entries.{FailsAt};
ghost use Rattle.audit_run.specs.Reading.{ComesBehind, HasCome, InputFails, IsBegun, IsContent};
ghost use Rattle.audit_run.specs.Reading.{SomeFailed, front_of, read_as};

use crate::file_kind::Identity;
use crate::tree::Tree;
use audit_lines::Refusal;
use byte_streams::Source;
use key_text::is_container;
use run_faults::LIMIT;
use std::alloc::AllocError;

// How many bytes are read at a time.
const BATCH: usize = 8_192;
// How many bytes of a file show whether it begins as a private key file.
const FRONT: usize = 64;
// More bytes than a file may have.
const TOO_MANY: usize = LIMIT as usize + 1;

/// An open file, and the bytes that were read of it so far.
#[derive(Drop)]
pub(crate) struct Reading<F> {
    pub(crate) identity: Identity,
    pub(crate) file: F,
    pub(crate) text: Vec<u8>,
}

/// Why reading ended.
#[derive(Clone, Copy)]
pub(crate) enum Came {
    /// All bytes came.
    All,
    /// As many bytes came as were wanted.
    More,
    /// The reader failed.
    Failed,
}

// Appends bytes of a reader to a buffer, until this has so many, or all. Fails only if an
// allocation for more bytes than the buffer has room for fails.
fn read_until<R: Source>(
    reader: &mut R,
    most: usize,
    text: &mut Vec<u8>,
) -> Result<Came, AllocError>
    requires { R.has_failed reader.old ≡ false }
    ensures bytes { OnOk result
        (ComesBehind (R.left reader.old) (R.left reader.new) text.old.items text.new.items) }
    ensures came { IfOk result
        (HasCome most (R.left reader.new) (R.has_failed reader.new) (vec_len text.new)) }
    ensures full { OnErr result (IfSome (R.left reader.old) (λ bytes.
        vec_capacity text.old < vec_len text.old + length bytes)) }
{
    let mut batch = [0; BATCH];
    'batches: while text.len() < most {
        let Ok(count) = reader.read(&mut batch) else {
            return Ok(Came::Failed);
        };
        if count == 0 {
            return Ok(Came::All);
        }
        text.extend_from_slice(&batch[..count])?;
    }
    Ok(Came::More)
}

/// Replaces an empty buffer by the first bytes of a file, so many that they show whether it begins
/// as a private key file. Returns false if its reader fails.
pub(crate) fn read_front<R: Source>(reader: &mut R, text: &mut Vec<u8>) -> Result<bool, AllocError>
    requires working { R.has_failed reader.old ≡ false }
    requires empty { text.old.items ≡ [] }
    ensures begun { IfOk result (λ came. came ≡ true
        → IsBegun (R.left reader.old) (R.left reader.new) text.new.items) }
    ensures failed { IfOk result (λ came. R.has_failed reader.new ≡ not came) }
{
    match read_until(reader, FRONT, text)? {
        Came::All => Ok(true),
        Came::More => Ok(true),
        Came::Failed => Ok(false),
    }
}

/// Whether a text begins as a private key file, by its first bytes.
pub(crate) fn is_private(text: &[u8]) -> bool
    ensures { result ≡ begins_container (front_of text.now) }
{
    if text.len() < FRONT {
        is_container(text)
    } else {
        is_container(&text[..FRONT])
    }
}

/// Appends the bytes of an open file to those that were read of it before, or says why they are not
/// all read.
pub(crate) fn read_file<T: Tree>(
    tree: &T,
    path: &str,
    file: &mut T::File,
    text: &mut Vec<u8>,
) -> Result<Result<(), Refusal>, AllocError>
    requires { T.File.has_failed file.old ≡ false }
    ensures { (all : Option (List ℕ)) → Consumes all (T.File.left file.old) text.old.items
        → IfOk result (λ read. IsContent (FailsAt (T.states tree.now) path.now) all
        (read_as read text.new.items)) }
{
    match read_until(file, TOO_MANY, text)? {
        Came::All => Ok(Ok(())),
        Came::More => Ok(Err(Refusal::TooLong)),
        Came::Failed => Ok(Err(tree.why_unread(path, file))),
    }
}

/// Appends the bytes of standard input to an empty buffer, or says why they are not all read.
pub(crate) fn read_input<I: Source>(
    input: &mut I,
    text: &mut Vec<u8>,
) -> Result<Result<(), Refusal>, AllocError>
    requires working { I.has_failed input.old ≡ false }
    requires empty { text.old.items ≡ [] }
    ensures { IfOk result (λ read. IsContent (InputFails (SomeFailed I.has_failed))
        (I.left input.old) (read_as read text.new.items)) }
{
    match read_until(input, TOO_MANY, text)? {
        Came::All => Ok(Ok(())),
        Came::More => Ok(Err(Refusal::TooLong)),
        Came::Failed => Ok(Err(Refusal::Read)),
    }
}

/// The bytes that were read, or why there are none.
pub(crate) fn content_of(read: Result<(), Refusal>, text: &[u8]) -> Result<&[u8], Refusal>
    ensures { content_of result ≡ read_as read text.now }
{
    match read {
        Ok(()) => Ok(text),
        Err(refusal) => Err(refusal),
    }
}
