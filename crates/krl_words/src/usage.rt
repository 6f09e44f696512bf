//! The usage of the command, with the name that it was called by (ssh-keygen(1), SYNOPSIS).

use crate::options::NAME;
use std::alloc::{AllocError, Global};

/// The name of the command: the first of the words, without the directories in it.
pub fn command_name(words: &[String]) -> &str {
    let Some(word) = words.first() else {
        return NAME;
    };
    match word.as_str().rsplit('/').next() {
        Some(name) if !name.is_empty() => name,
        _ => NAME,
    }
}

/// The forms of use of a command with this name.
pub fn usage_of(alloc: Global, name: &str) -> Result<String, AllocError> {
    format!(in alloc;
        "{name} -l [-E hash] -f file
       {name} -L [-E hash] -f file
       {name} -k -f krl [-u] [-s ca_public] [-z version] [file ...]
       {name} -Q [-l] -f krl [file ...]"
    )
}

/// An example of each use of a command with this name.
pub fn examples_of(alloc: Global, name: &str) -> Result<String, AllocError> {
    format!(in alloc;
        "Examples:
  {name} -l -f key.pub                      the fingerprints of keys
  {name} -L -f key-cert.pub                 what certificates say
  {name} -k -f list.krl -s ca.pub lines     a list made of specification files
  {name} -Q -f list.krl key.pub             whether keys are revoked"
    )
}
