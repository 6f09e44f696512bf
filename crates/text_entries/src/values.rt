//! The bytes that lines of the text of a list give.

ghost use Rattle.std.specs.Prelude.{◌≡◌, Ok, true};
ghost use Rattle.std.specs.Char.{is_ascii_alphabetic, is_ascii_hexdigit};
ghost use Rattle.std.specs.List.{list_all, list_any};
ghost use Rattle.ssh_wire.specs.Reading.{Answers};
ghost use Rattle.text_entries.specs.TextCause.{Reports};
ghost use Rattle.run_faults.specs.declared.spec_cause.SpecCause.TheVariants.{Fingerprint};
ghost use Rattle.text_entries.specs.Values.{begins_with_key, begins_with_zero};
ghost use Rattle.text_entries.specs.Values.{blob_in, bytes_in, has_blank, has_leading_zero};
ghost use Rattle.text_entries.specs.Values.{has_zero, is_bare_hex, is_sha1, lacks_prefix};
ghost use Rattle.text_entries.specs.Values.{sha1_in, sized};
ghost use Rattle.text_entries.specs.declared.text_cause.TextCause.TheVariants.{Spec};

use crate::text_cause::TextCause;
use base64::DecodeAllocError;
use base64::engine::general_purpose::{STANDARD, STANDARD_NO_PAD};
use hex::FromHexError;
use key_text::{FingerprintFault, LineFault, after_blanks, before_ending, is_blank, key_part};
use keyed_lines::KeyCause;
use krl_spec::position_of;
use run_faults::SpecCause;
use ssh_wire::Bytes;
use std::alloc::Global;

const SHA1: &[u8] = b"SHA1:";

/// The fault of a value that is to be a key line, and does not begin with the type name of a key.
pub const NO_KEY: TextCause = TextCause::Spec(SpecCause::Key(KeyCause::Line(LineFault::NoKey)));

/// Whether the text begins with the type name of a key: no options, marker or host names are before
/// it.
pub fn begins_with_key(text: &[u8]) -> bool
    ensures { result ≡ begins_with_key text.now }
{
    match key_part(text) {
        Some(part) => part.len() == text.len(),
        None => false,
    }
}

/// The bytes of base64 with padding.
#[tactic(auto, unfolding(crate::specs::Values::blob_in))]
pub fn read_blob(alloc: Global, text: &[u8]) -> Result<Bytes, TextCause>
    ensures { Answers Reports (λ bytes. bytes) result (blob_in text.now) }
{
    match STANDARD.decode(alloc, text) {
        Ok(bytes) => Ok(Bytes::from_vec(bytes)),
        Err(DecodeAllocError::DecodeError(_)) => Err(TextCause::Base64),
        Err(DecodeAllocError::OutOfMemory) => Err(TextCause::Spec(SpecCause::NoMemory)),
    }
}

/// The bytes of pairs of hexadecimal digits.
#[tactic(auto, unfolding(crate::specs::Values::bytes_in))]
pub fn read_bytes(alloc: Global, text: &[u8]) -> Result<Bytes, TextCause>
    ensures { Answers Reports (λ bytes. bytes) result (bytes_in text.now) }
{
    match hex::decode(alloc, text) {
        Ok(bytes) => Ok(Bytes::from_vec(bytes)),
        Err(FromHexError::OutOfMemory) => Err(TextCause::Spec(SpecCause::NoMemory)),
        Err(_) => Err(TextCause::Hex),
    }
}

/// Whether a hash is a SHA-1.
pub fn is_sha1(text: &[u8]) -> bool
    ensures { result ≡ is_sha1 text.now }
{
    text.starts_with(SHA1)
}

/// The SHA-1 whose base64 without padding is after the prefix.
#[tactic(auto, unfolding(crate::specs::Values::sha1_in))]
pub fn read_sha1(alloc: Global, text: &[u8]) -> Result<[u8; 20], TextCause>
    requires { is_sha1 text.now ≡ true }
    ensures { Answers Reports (λ hash. hash) result (sha1_in text.now) }
{
    match STANDARD_NO_PAD.decode(alloc, &text[SHA1.len()..]) {
        Ok(bytes) => whole_sha1(&bytes),
        Err(DecodeAllocError::DecodeError(_)) => Err(no_sha1(FingerprintFault::Base64)),
        Err(DecodeAllocError::OutOfMemory) => Err(TextCause::Spec(SpecCause::NoMemory)),
    }
}

// The SHA-1, if it has the size of one.
fn whole_sha1(bytes: &[u8]) -> Result<[u8; 20], TextCause>
    ensures { Answers Reports (λ hash. hash) result (sized (Ok bytes.now)) }
{
    <[u8; 20]>::try_from(bytes).map_err(|_| no_sha1(FingerprintFault::Length))
}

// The cause of a fault of a hash.
fn no_sha1(fault: FingerprintFault) -> TextCause
    ensures { result ≡ Spec (Fingerprint fault) }
{
    TextCause::Spec(SpecCause::Fingerprint(fault))
}

/// Whether a serial number, or one of two around a hyphen, begins with 0 and has more digits.
#[tactic(auto, unfolding(crate::specs::Values::has_leading_zero))]
pub fn has_leading_zero(text: &[u8]) -> bool
    ensures { result ≡ has_leading_zero text.now }
{
    let hyphen = position_of(text, b'-');
    if hyphen == text.len() {
        return begins_with_zero(text);
    }
    begins_with_zero(text) || begins_with_zero(after_blanks(&text[hyphen + 1..]))
}

// Whether the number begins with 0 and has more digits.
fn begins_with_zero(text: &[u8]) -> bool
    ensures { result ≡ begins_with_zero text.now }
{
    match text {
        [first, second, ..] => *first == b'0' && second.is_ascii_digit(),
        _ => false,
    }
}

/// Whether a serial number, or one of two around a hyphen, is given by hexadecimal digits without
/// `0x` before them.
#[tactic(auto, unfolding(crate::specs::Values::lacks_prefix))]
pub fn lacks_prefix(text: &[u8]) -> bool
    ensures { result ≡ lacks_prefix text.now }
{
    let hyphen = position_of(text, b'-');
    if hyphen == text.len() {
        return is_bare_hex(text);
    }
    is_bare_hex(before_ending(&text[..hyphen])) || is_bare_hex(after_blanks(&text[hyphen + 1..]))
}

// Whether the digits are hexadecimal, and `0x` is not before them.
fn is_bare_hex(text: &[u8]) -> bool
    ensures { result ≡ is_bare_hex text.now }
{
    are_hex_digits(text) && has_letter(text)
}

// Whether each byte is a hexadecimal digit.
fn are_hex_digits(text: &[u8]) -> bool
    ensures { result ≡ list_all is_ascii_hexdigit text.now }
{
    text.iter().all(|byte| byte.is_ascii_hexdigit())
}

// Whether the text has a letter of ASCII.
fn has_letter(text: &[u8]) -> bool
    ensures { result ≡ list_any is_ascii_alphabetic text.now }
{
    text.iter().any(|byte| byte.is_ascii_alphabetic())
}

/// Whether the text has a blank.
pub fn has_blank(text: &[u8]) -> bool
    ensures { result ≡ has_blank text.now }
{
    text.iter().any(|byte| is_blank(*byte))
}

/// Whether a key ID has a zero byte, at which OpenSSH would end it.
pub fn has_zero(id: &[u8]) -> bool
    ensures { result ≡ has_zero id.now }
{
    id.iter().any(|byte| *byte == 0)
}
