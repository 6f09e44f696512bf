//! The texts of an audit, and the list that they make.

ghost use Rattle.std.specs.Prelude.{◌≡◌, IfErr, IfOk};
ghost use Rattle.krl.specs.Texts.{AreInputs, AreIndexed, IsListOf};

use crate::ending::fail_to_make;
use byte_streams::Lent;
use krl_fingerprints::KeysBy;
use krl_system::date;
use list_making::Made;
use ssh_wire::Bytes;
use text_index::TextIndex;
use text_run::{Inputs, MakeCause, MakeFault, Over, Text, index_in, list_over};

/// The date of a list of these texts, which decides which of their lines are over; or the exit
/// status where there is none. Without a text there is no list, and the clock is not read.
pub fn date_of<'a>(rt: &HostRuntime, texts: &'a [Text<'a>]) -> Result<u64, u8>
    ensures { IfErr result (λ status. status ≡ 255) }
{
    let [first, ..] = texts else {
        return Ok(0);
    };
    match date(rt) {
        Ok(date) => Ok(date),
        Err(cause) => {
            let fault = MakeFault::whole(first.name, MakeCause::Run(cause));
            Err(fail_to_make(rt, &fault, &[]))
        }
    }
}

/// The texts by what their lines name, for queries that give keys so, if there is a text; or the
/// exit status where they are refused.
pub fn index_of<'a>(
    rt: &HostRuntime,
    by: KeysBy,
    date: u64,
    texts: &'a [Text<'a>],
) -> Result<Option<TextIndex<'a>>, u8>
    ensures indexed { IfOk result (AreIndexed by date texts.now) }
    ensures refused { IfErr result (λ status. status ≡ 255) }
{
    if texts.is_empty() {
        return Ok(None);
    }
    match index_in(rt.alloc(), by, date, texts) {
        Ok(index) => Ok(Some(index)),
        Err(fault) => Err(fail_to_make(rt, &fault, texts)),
    }
}

/// The bytes of the list that texts make by themselves, under this name; or the exit status where
/// they make none.
pub fn list_of<'a>(
    rt: &HostRuntime,
    name: &'a str,
    date: u64,
    texts: &'a [Text<'a>],
) -> Result<Bytes, u8>
    ensures made { IfOk result (λ list. IsListOf name.now date texts.now list) }
    ensures refused { IfErr result (λ status. status ≡ 255) }
{
    let inputs = inputs_of(name, date, texts);
    match list_over(rt.alloc(), &inputs, None::<Lent>) {
        Ok(Made { bytes, .. }) => Ok(Bytes::from_vec(bytes)),
        Err(fault) => Err(fail_to_make(rt, &fault, texts)),
    }
}

// A new list of these texts, which is put nowhere.
fn inputs_of<'a>(name: &'a str, date: u64, texts: &'a [Text<'a>]) -> Inputs<'a>
    ensures { AreInputs name.now date texts.now result }
{
    Inputs {
        name,
        over: Over::Nothing,
        version: None,
        date,
        comment: None,
        allow_empty: false,
        texts,
    }
}
