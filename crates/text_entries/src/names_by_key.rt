//! The names of certificate authorities, by their keys.

ghost use Rattle.std.specs.Prelude.{◌≡◌, ℕ, List, [], IfOk, OnOk, MatchOption, None, Some};
ghost use Rattle.text_entries.specs.AuthorityNames.{key_named, name_of, or_named, printed_names};
ghost use Rattle.text_entries.specs.AuthorityNames.{with_name};

use crate::authority_names::AuthorityNames;
use sha2::{Digest, Sha256};
use ssh_wire::Bytes;
use std::alloc::{AllocError, Global};
use std::collections::BTreeMap;
use std::marker::Model;

/// The names of certificate authorities, by the bytes of their keys, or by the SHA-256 of these: of
/// each key the first one in the order of names.
#[derive(Drop)]
pub struct NamesByKey {
    alloc: Global,
    names: BTreeMap<Vec<u8>, Bytes>,
}

impl Model for NamesByKey {
    ghost use Rattle.text_entries.specs.AuthorityNames.{NamedKeys, named_keys};

    ghost Value = { NamedKeys };

    ghost view = { λ names. named_keys names.names.entries };
}

impl NamesByKey {
    /// No names. Allocates nothing.
    pub fn new(alloc: Global) -> NamesByKey
        ensures { result ≡ [] }
    {
        NamesByKey {
            alloc,
            names: BTreeMap::new(alloc),
        }
    }

    /// The name of the authority with this key.
    pub fn name(&self, key: &[u8]) -> Option<&[u8]>
        ensures { MatchOption result (key_named self.now key.now ≡ None)
            (λ name. key_named self.now key.now ≡ Some name.now) }
    {
        match self.names.get(key) {
            Some(name) => Some(name.as_slice()),
            None => None,
        }
    }

    // Gives a key a name, unless it has one.
    fn add(&mut self, key: &[u8], name: &[u8]) -> Result<(), AllocError>
        ensures { (other : List ℕ) → OnOk result
            (key_named self.new other
            ≡ or_named (key_named self.old other) key.now name.now other) }
    {
        match self.names.get(key) {
            Some(_) => Ok(()),
            None => self.insert(key, name),
        }
    }

    // Gives a key a name.
    fn insert(&mut self, key: &[u8], name: &[u8]) -> Result<(), AllocError>
        ensures { OnOk result (self.new ≡ with_name self.old key.now name.now) }
    {
        let key = Vec::from_slice(self.alloc, key)?;
        let name = Vec::from_slice(self.alloc, name)?;
        self.names.insert(key, Bytes::from_vec(name))?;
        Ok(())
    }
}

impl AuthorityNames {
    /// These names, by the keys that they have.
    pub fn by_key(&self) -> Result<NamesByKey, AllocError>
        ensures { (key : List ℕ) → IfOk result
            (λ names. key_named names key ≡ name_of self.now key) }
    {
        let mut names = NamesByKey::new(self.alloc);
        for (name, key) in self.keys.iter() {
            names.add(key.as_slice(), name)?;
        }
        Ok(names)
    }
    /// These names, by the SHA-256 of the keys that they have.
    pub fn by_fingerprint(&self) -> Result<NamesByKey, AllocError>
        ensures { (print : List ℕ) → IfOk result
            (λ names. key_named names print ≡ name_of (printed_names self.now) print) }
    {
        let mut names = NamesByKey::new(self.alloc);
        for (name, key) in self.keys.iter() {
            names.add(&Sha256::digest(key.as_slice()), name)?;
        }
        Ok(names)
    }
}
