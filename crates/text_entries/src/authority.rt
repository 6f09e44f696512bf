//! The certificate authority that is current.

ghost use Rattle.std.specs.Prelude.{◌≡◌, MatchOption, None, Some};
ghost use Rattle.ssh_wire.specs.Reading.{Answers};
ghost use Rattle.krl_spec.specs.Under.{authority_under};
ghost use Rattle.text_entries.specs.TextCause.{Reports};
ghost use Rattle.text_entries.specs.Values.{authority_blob_in, authority_in, authority_key_in};
ghost use Rattle.text_entries.specs.Values.{bare_authority_in, is_all, unless_certified};

use crate::text_cause::TextCause;
use crate::values::{NO_KEY, begins_with_key, read_blob};
use krl_spec::{Under, ask, key_line};
use ssh_cert::Subject;
use ssh_wire::Bytes;
use std::alloc::Global;

/// The authority that is current, as entries name it.
pub fn under(current: &Option<Bytes>) -> Under<'_>
    ensures { authority_under result ≡ current.now }
{
    match current {
        None => Under::NotGiven,
        Some(authority) => Under::Of(authority.as_slice()),
    }
}

/// The bytes of the authority of an entry, of which all authorities have none.
pub fn bytes_of(under: Under<'_>) -> Option<&[u8]>
    ensures { MatchOption result (authority_under under.entry ≡ None)
        (λ bytes. authority_under under.entry ≡ Some bytes.now) }
{
    match under {
        Under::NotGiven => None,
        Under::All => Some(b""),
        Under::Of(bytes) => Some(bytes),
    }
}

/// The authority that a line gives: all of them, or one by its key line.
#[tactic(auto, unfolding(crate::specs::Values::authority_in))]
pub fn read_authority(alloc: Global, text: &[u8]) -> Result<Bytes, TextCause>
    ensures { Answers Reports (λ bytes. bytes) result (authority_in text.now) }
{
    if is_all(text) {
        return Ok(Bytes::from_vec(Vec::new(alloc)));
    }
    read_key(alloc, text)
}

/// Whether the text names all authorities.
pub fn is_all(text: &[u8]) -> bool
    ensures { result ≡ is_all text.now }
{
    text.starts_with(b"all") && text.len() == 3
}

/// The blob of a key line of a plain key, with nothing before the key.
pub fn read_key(alloc: Global, text: &[u8]) -> Result<Bytes, TextCause>
    ensures { Answers Reports (λ bytes. bytes) result (bare_authority_in text.now) }
{
    if !begins_with_key(text) {
        return Err(NO_KEY);
    }
    read_line(alloc, text)
}

// The blob of a key line of a plain key.
#[tactic(auto, unfolding(crate::specs::Values::authority_key_in))]
fn read_line(alloc: Global, text: &[u8]) -> Result<Bytes, TextCause>
    ensures { Answers Reports (λ bytes. bytes) result (authority_key_in text.now) }
{
    let line = match key_line(alloc, text) {
        Ok(line) => line,
        Err(cause) => return Err(TextCause::Spec(cause)),
    };
    match ask(alloc, line.blob.as_slice()) {
        Ok(asked) => plain_of(asked),
        Err(cause) => Err(TextCause::Spec(cause)),
    }
}

// The blob of a plain key, which is no certificate.
fn plain_of(asked: Subject<'_>) -> Result<Bytes, TextCause>
    ensures { Answers Reports (λ bytes. bytes) result
        (unless_certified asked.entry.plain asked.entry.cert) }
{
    let Subject { plain, cert } = asked;
    match cert {
        None => Ok(plain),
        Some(_) => Err(TextCause::Certificate),
    }
}

/// The authority that a line gives by its bytes.
#[tactic(auto, unfolding(crate::specs::Values::authority_blob_in))]
pub fn read_authority_blob(alloc: Global, text: &[u8]) -> Result<Bytes, TextCause>
    ensures { Answers Reports (λ bytes. bytes) result (authority_blob_in text.now) }
{
    let bytes = read_blob(alloc, text)?;
    if bytes.as_slice().is_empty() {
        return Err(TextCause::NoBytes);
    }
    Ok(bytes)
}
