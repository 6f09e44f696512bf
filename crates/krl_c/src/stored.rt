//! The stored list, or that none was read.

ghost use Rattle.std.specs.Prelude.{◌≡◌};
ghost use Rattle.krl_c.specs.Answer.{AnswersBlob, AnswersLine};
ghost use Rattle.krl_c.specs.Stored.{AnswersStored, unloaded};

use crate::loaded_list::{ask_loaded, ask_loaded_of_line};
use crate::number::NOT_LOADED;
use krl_core::Revocations;
use span_sets::Held;
use std::alloc::Global;

/// The stored list, and whether one was read.
#[derive(Drop)]
pub struct Stored {
    pub(crate) loaded: bool,
    pub(crate) list: Revocations<Held>,
}

// No list was read. Does not allocate.
pub(crate) fn empty(alloc: Global) -> Stored
    ensures { result ≡ unloaded }
{
    Stored {
        loaded: false,
        list: Revocations::new(alloc),
    }
}

// Queries the stored list for a blob.
pub(crate) fn ask(alloc: Global, stored: &Stored, blob: &[u8]) -> i32
    ensures { AnswersStored (λ entries. AnswersBlob entries blob.now) stored.now result }
{
    if stored.loaded {
        ask_loaded(alloc, &stored.list, blob)
    } else {
        NOT_LOADED
    }
}

// Queries the stored list for the key of a line.
pub(crate) fn ask_of_line(alloc: Global, stored: &Stored, line: &[u8]) -> i32
    ensures { AnswersStored (λ entries. AnswersLine entries line.now) stored.now result }
{
    if stored.loaded {
        ask_loaded_of_line(alloc, &stored.list, line)
    } else {
        NOT_LOADED
    }
}
