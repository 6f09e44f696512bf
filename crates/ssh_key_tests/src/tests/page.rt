//! The callers of the pages of `ssh_key` and `key_text`.

ghost use Rattle.std.specs.Prelude.{◌≡◌, ℕ, List, IfOk};
ghost use Rattle.ssh_key.specs.Key.{IsKey, PublicKey};
ghost use Rattle.key_text.specs.Fingerprints.{fingerprint_text};
ghost use Rattle.key_text.specs.KeyLine.{IsKeyLine};
ghost use Rattle.key_text.specs.declared.hash.Hash.TheVariants.{Sha256};

use key_text::{Hash, LineFault, fingerprint, read_line};
use ssh_key::laws::read_where_spelled;
use ssh_key::{KeyFault, read_key};
use std::alloc::Global;
use test_fixtures::{GITHUB, GITHUB_LINE, GITHUB_PRINT};

/// The size in bits of the key of a blob, as `ssh-keygen -l` prints it.
fn key_bits(blob: &[u8]) -> Result<u32, KeyFault>
    ensures { IfOk result (λ bits. (key : PublicKey) × (IsKey blob.now key × (bits ≡ key.bits))) }
{
    read_where_spelled();
    let key = read_key(blob)?;
    Ok(key.bits())
}

/// The SHA-256 fingerprint of the key of a line, as `ssh-keygen -l` prints it.
fn printed_key(alloc: Global, text: &[u8]) -> Result<Vec<u8>, LineFault>
    ensures { IfOk result (λ printed. (word : List ℕ) × ((blob : List ℕ) × ((comment : List ℕ)
        × (IsKeyLine text.now word blob comment
        × (printed.items ≡ fingerprint_text Sha256 blob))))) }
{
    let line = read_line(alloc, text)?;
    match fingerprint(alloc, Hash::Sha256, line.blob.as_slice()) {
        Ok(printed) => Ok(printed),
        Err(_) => Err(LineFault::NoMemory),
    }
}

#[test]
fn a_key_has_its_bits(rt: HostRuntime) {
    assert!(rt; key_bits(GITHUB) == Ok(256));
    assert!(rt; key_bits(b"nothing").is_err());
}

#[test]
fn a_line_is_printed(rt: HostRuntime) {
    let printed = printed_key(rt.alloc(), GITHUB_LINE).expect(&rt, "it is a key line");
    assert!(rt; printed.as_slice() == GITHUB_PRINT);
    assert!(rt; printed_key(rt.alloc(), b"nothing").err() == Some(LineFault::NoKey));
}
