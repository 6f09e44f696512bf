//! The names that texts give to certificate authorities.

ghost use Rattle.std.specs.Prelude.{◌≡◌, [], MatchResult, OnErr, OnOk};
ghost use Rattle.std.specs.List.{list_all};
ghost use Rattle.krl_spec.specs.Under.{authority_under};
ghost use Rattle.text_entries.specs.AuthorityNames.{IsNamed, IsUnknown, authority_named};
ghost use Rattle.text_entries.specs.AuthorityNames.{can_have, is_name, is_name_byte, with_name};

use crate::authority::is_all;
use crate::text_cause::TextCause;
use krl_spec::Under;
use ssh_wire::Bytes;
use std::alloc::{AllocError, Global};
use std::collections::BTreeMap;
use std::marker::Model;

// The most bytes that a name can have.
const LONGEST: usize = 64;

/// The names of certificate authorities, each with the bytes of its key.
#[derive(Drop)]
pub struct AuthorityNames {
    pub(crate) alloc: Global,
    pub(crate) keys: BTreeMap<Vec<u8>, Bytes>,
}

impl Model for AuthorityNames {
    ghost use Rattle.text_entries.specs.AuthorityNames.{NamedKeys, named_keys};

    ghost Value = { NamedKeys };

    ghost view = { λ names. named_keys names.keys.entries };
}

impl AuthorityNames {
    /// No names. Allocates nothing.
    pub fn new(alloc: Global) -> AuthorityNames
        ensures { result ≡ [] }
    {
        AuthorityNames {
            alloc,
            keys: BTreeMap::new(alloc),
        }
    }

    // The authority that has a name, or all of them.
    pub(crate) fn authority(&self, name: &[u8]) -> Result<Under<'_>, TextCause>
        ensures { MatchResult result
            (λ under. IsNamed (authority_under under) (authority_named self.now name.now))
            (λ cause. IsUnknown cause (authority_named self.now name.now)) }
    {
        if is_all(name) {
            return Ok(Under::All);
        }
        match self.keys.get(name) {
            Some(key) => Ok(Under::Of(key.as_slice())),
            None => Err(TextCause::UnknownName),
        }
    }

    // Whether the name is free, or that of this key.
    pub(crate) fn can_have(&self, name: &[u8], key: &[u8]) -> bool
        ensures { result ≡ can_have self.now name.now key.now }
    {
        match self.keys.get(name) {
            Some(known) => known.as_slice() == key,
            None => true,
        }
    }

    // Gives a name to a key.
    pub(crate) fn add(&mut self, name: &[u8], key: Bytes) -> Result<(), AllocError>
        ensures added { OnOk result (self.new ≡ with_name self.old name.now key) }
        ensures refused { OnErr result (self.new ≡ self.old) }
    {
        let name = Vec::from_slice(self.alloc, name)?;
        self.keys.insert(name, key)?;
        Ok(())
    }
}

// Whether an authority can have this name.
pub(crate) fn is_name(name: &[u8]) -> bool
    ensures { result ≡ is_name name.now }
{
    !name.is_empty() && name.len() <= LONGEST && are_name_bytes(name) && !is_all(name)
}

// Whether each byte can be in a name.
fn are_name_bytes(name: &[u8]) -> bool
    ensures { result ≡ list_all is_name_byte name.now }
{
    name.iter().all(|byte| is_name_byte(*byte))
}

// Whether a byte can be in a name: a letter or a digit of ASCII, a hyphen, an underscore or a dot.
fn is_name_byte(byte: u8) -> bool
    ensures { result ≡ is_name_byte byte }
{
    byte.is_ascii_alphanumeric() || byte == b'-' || byte == b'_' || byte == b'.'
}
