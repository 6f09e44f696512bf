//! Queries of a list that may be a plain list of keys.

ghost use Rattle.krl_c.specs.Any.{AnswersAny, AnswersPlain};

use crate::check::ask_list;
use crate::loaded_list::ask_loaded;
use crate::number::of_plain;
use plain_list::{begins_list, read_plain};
use span_sets::Held;
use std::alloc::Global;

// Queries a key revocation list or a plain list for a blob.
pub(crate) fn ask_any(alloc: Global, list: &[u8], blob: &[u8]) -> i32
    ensures { AnswersAny list.now blob.now result }
{
    if begins_list(list) {
        ask_list(alloc, list, blob)
    } else {
        ask_plain(alloc, list, blob)
    }
}

// Queries a plain list for a blob.
fn ask_plain(alloc: Global, list: &[u8], blob: &[u8]) -> i32
    ensures { AnswersPlain list.now blob.now result }
{
    match read_plain::<Held>(alloc, list) {
        Ok(held) => ask_loaded(alloc, &held, blob),
        Err(fault) => of_plain(fault),
    }
}
