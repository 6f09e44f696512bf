//! Queries of a stored list for a blob.

ghost use Rattle.std.specs.Prelude.{List, IfOk, IfErr};
ghost use Rattle.krl_entries.specs.Revocations.{Means};
ghost use Rattle.krl_types.specs.Entry.{Entry};
ghost use Rattle.krl_core.specs.Reading.{HoldsAll};
ghost use Rattle.krl_c.specs.Answer.{AnswersBlob, AnswersLine, IsCompared, IsRefusal};

use crate::asked::asked_for;
use crate::number::{FINE, REVOKED, of_blob, of_line};
use crate::refusal::Refusal;
use byte_streams::Lent;
use key_text::read_line;
use krl_core::{Revocations, read_krl};
use krl_openssh::first_incomparable;
use span_sets::Held;
use std::alloc::Global;

// The entries of a list, if its names can be compared.
pub(crate) fn load_list(alloc: Global, list: &[u8]) -> Result<Revocations<Held>, Refusal>
    ensures found { IfOk result (λ held. (entries : List Entry)
        × IsCompared list.now entries × HoldsAll list.now held entries) }
    ensures refused { IfErr result (λ refusal. IsRefusal ⊥ list.now refusal) }
{
    let (read, _source) = read_krl::<Held, _>(alloc, Lent::new(list));
    match read {
        Ok((_header, held)) => match first_incomparable(list) {
            None => Ok(held),
            Some(why) => Err(Refusal::Incomparable(why)),
        },
        Err(fault) => Err(Refusal::Fault(fault)),
    }
}

// Queries the stored list for a blob.
pub(crate) fn ask_loaded(alloc: Global, held: &Revocations<Held>, blob: &[u8]) -> i32
    ensures { (entries : List Entry) → Means held.now entries
        → AnswersBlob entries blob.now result }
{
    match asked_for(alloc, blob) {
        Ok(asked) => { if held.query(&asked) { REVOKED } else { FINE } }
        Err(fault) => of_blob(fault),
    }
}

// Queries the stored list for the key of a line.
pub(crate) fn ask_loaded_of_line(alloc: Global, held: &Revocations<Held>, line: &[u8]) -> i32
    ensures { (entries : List Entry) → Means held.now entries
        → AnswersLine entries line.now result }
{
    match read_line(alloc, line) {
        Ok(read) => ask_loaded(alloc, held, read.blob.as_slice()),
        Err(fault) => of_line(fault),
    }
}
