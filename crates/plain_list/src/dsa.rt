//! The lines of a plain list with DSA, which OpenSSH 10 does not read.

ghost use Rattle.std.specs.Prelude.{◌≡◌, IfOk, List, ℕ};
ghost use Rattle.ssh_cert.specs.AnyKey.{IsReadAs, asked_of};
ghost use Rattle.plain_list.specs.Dsa.{IsFirstDsa, dsa_part, dsa_words, is_dsa, is_dsa_kind};
ghost use Rattle.plain_list.specs.Dsa.{line_dsa};
ghost use Rattle.plain_list.specs.List.{lines_of};

use crate::line::{content_of, is_remark};
use key_text::{LineFault, read_line, split_line};
use ssh_cert::{AnyKey, read_any};
use ssh_key::{Kind, read_key};
use std::alloc::{AllocError, Global};

/// The DSA on a line.
#[derive(Clone, Copy, PartialEq, Eq)]
pub enum DsaPart {
    /// The key is a DSA key, or that of a certificate is.
    Key,
    /// The key of the certificate is another one, and that of its authority is a DSA key.
    Authority,
}

/// A line that OpenSSH 10 does not read, counted from 1, and the DSA on it.
#[derive(Clone, Copy, PartialEq, Eq)]
pub struct DsaLine {
    pub number: u64,
    pub part: DsaPart,
}

impl DsaPart {
    /// The words for people.
    pub fn words(self) -> &'static str
        ensures { result.now ≡ dsa_words self }
    {
        match self {
            DsaPart::Key => "a DSA key",
            DsaPart::Authority => "a certificate of a DSA CA",
        }
    }
}

/// Returns the first line of a plain list with DSA, if there is one. OpenSSH 10 refuses every key
/// for a list with such a line, and earlier releases read it.
pub fn first_dsa_line(alloc: Global, text: &[u8]) -> Result<Option<DsaLine>, AllocError>
    ensures { IfOk result (λ found. IsFirstDsa (lines_of text.now) found) }
{
    let mut rest = text;
    let mut passed: u64 = 0;
    'lines: loop {
        let (line, after) = split_line(rest);
        passed += 1;
        if let Some(part) = dsa_of_line(alloc, line)? {
            let number = passed;
            return Ok(Some(DsaLine { number, part }));
        }
        let Some(after) = after else {
            return Ok(None);
        };
        rest = after;
    }
}

// The DSA on a line, if there is any.
#[tactic(auto, unfolding(crate::specs::Dsa::line_dsa, keyed_lines::specs::Keys::subject_in))]
fn dsa_of_line(alloc: Global, line: &[u8]) -> Result<Option<DsaPart>, AllocError>
    ensures { IfOk result (λ part. part ≡ line_dsa line.now) }
{
    let content = content_of(line);
    if is_remark(content) {
        return Ok(None);
    }
    match read_line(alloc, content) {
        Ok(line) => match read_any(line.blob.as_slice()) {
            Ok(any) => Ok(dsa_of_key(&any)),
            Err(_) => Ok(None),
        },
        Err(LineFault::NoMemory) => Err(AllocError),
        Err(_) => Ok(None),
    }
}

// The DSA of a key or a certificate, if there is any.
fn dsa_of_key(any: &AnyKey) -> Option<DsaPart>
    ensures { (blob : List ℕ) → IsReadAs blob any.now → result ≡ dsa_part (asked_of any.now) }
{
    if is_dsa_kind(any.plain().kind()) {
        return Some(DsaPart::Key);
    }
    match any {
        AnyKey::Plain(_) => None,
        AnyKey::Certified(cert) => {
            if is_dsa(cert.authority()) {
                Some(DsaPart::Authority)
            } else {
                None
            }
        }
    }
}

// Whether a blob is that of a DSA key.
fn is_dsa(blob: &[u8]) -> bool
    ensures { result ≡ is_dsa blob.now }
{
    match read_key(blob) {
        Ok(key) => is_dsa_kind(key.kind()),
        Err(_) => false,
    }
}

// Whether keys of this kind are DSA keys.
fn is_dsa_kind(kind: Kind) -> bool
    ensures { result ≡ is_dsa_kind kind }
{
    match kind {
        Kind::Dsa => true,
        Kind::Rsa
        | Kind::Ecdsa256
        | Kind::Ecdsa384
        | Kind::Ecdsa521
        | Kind::Ed25519
        | Kind::EcdsaSk
        | Kind::Ed25519Sk => false,
    }
}
