//! The printed fingerprint of a key, and the name of an authority.

ghost use Rattle.std.specs.Prelude.{◌≡◌, IfOk, option_map, string_bytes};
ghost use Rattle.key_text.specs.Fingerprints.{unpadded};
ghost use Rattle.text_index.specs.Explaining.{explained_of};
ghost use Rattle.audit_text.specs.Print.{spelled_by, spelled_of};

use base64::engine::general_purpose::STANDARD_NO_PAD;
use key_text::{Hash, fingerprint};
use krl_fingerprints::KeysBy;
use line_pieces::{Printed, Words, put};
use std::alloc::{AllocError, Global};
use text_index::Explanation;

/// How keys are spelled.
#[derive(Clone, Copy)]
pub struct Spelling<'a> {
    /// How they are given.
    pub by: KeysBy,
    /// The name of the certificate's authority, if it has one.
    pub authority: Option<&'a [u8]>,
}

impl<'a> Spelling<'a> {
    /// With the name that texts give to the authority, if there are texts.
    pub fn explained(by: KeysBy, explanation: &'a Option<Explanation<'a>>) -> Spelling<'a>
        ensures { spelled_of result ≡ spelled_by by (option_map explained_of explanation.now) }
    {
        let authority = match explanation {
            None => None,
            Some(explanation) => name_in(explanation),
        };
        Spelling { by, authority }
    }
}

/// The name of the authority in an explanation, if it has one.
pub(crate) fn name_in<'e>(explanation: &'e Explanation<'_>) -> Option<&'e [u8]>
    ensures { option_map (λ name. name.now) result ≡ explanation.now.authority }
{
    match &explanation.authority {
        None => None,
        Some(name) => Some(name.as_slice()),
    }
}

/// The SHA-256 fingerprint of a key that is given by its blob, or by the fingerprint itself.
#[derive(Clone, Copy)]
pub struct KeyPrint<'a> {
    /// The allocator for the fingerprint.
    pub alloc: Global,
    /// How the key is given.
    pub by: KeysBy,
    /// The blob, or the 32 bytes of the SHA-256.
    pub key: &'a [u8],
}

impl<'a> Printed for KeyPrint<'a> {
    ghost use Rattle.audit_text.specs.Print.{print_by};

    ghost text = { λ print. print_by print.by print.key.now };

    fn push_to(&self, out: &mut Vec<u8>) -> Result<(), AllocError> {
        match self.by {
            KeysBy::Blob => {
                let print = fingerprint(self.alloc, Hash::Sha256, self.key)?;
                put!(out; Words(&print))
            }
            KeysBy::Fingerprint => {
                let base64 = unpadded(self.alloc, self.key)?;
                put!(out; b"SHA256:", Words(base64.as_bytes()))
            }
        }
    }
}

// The base64 of bytes, without padding (RFC 4648 section 4).
#[tactic(auto, unfolding(key_text::specs::Fingerprints::unpadded))]
fn unpadded(alloc: Global, bytes: &[u8]) -> Result<String, AllocError>
    ensures { IfOk result (λ text. string_bytes text ≡ unpadded bytes.now) }
{
    STANDARD_NO_PAD.encode(alloc, bytes)
}
