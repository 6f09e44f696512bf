//! The names that texts give to certificate authorities.

ghost use Rattle.std.specs.Prelude.{◌≡◌, IfErr, IfOk, option_map};
ghost use Rattle.krl.specs.Names.{AreNamesOf};

use crate::ending::fail_to_make;
use crate::loading::texts_of;
use krl_system::date;
use text_entries::NamesByKey;
use text_run::{MakeCause, MakeFault, names_in};

/// The names that the texts with these names give to authorities, if there is a text; or the exit
/// status where they are refused. The date of a list decides which of their lines are over.
pub fn names_of(rt: &HostRuntime, files: &[&str]) -> Result<Option<NamesByKey>, u8>
    ensures given { IfOk result (AreNamesOf files.now) }
    ensures refused { IfErr result (λ status. status ≡ 255) }
{
    let [first, ..] = files else {
        return Ok(None);
    };
    let texts = match texts_of(rt, files) {
        Ok(texts) => texts,
        Err(fault) => return Err(fail_to_make(rt, &fault, &[])),
    };
    let date = match date(rt) {
        Ok(date) => date,
        Err(cause) => {
            let fault = MakeFault::whole(*first, MakeCause::Run(cause));
            return Err(fail_to_make(rt, &fault, &[]));
        }
    };
    match names_in(rt.alloc(), date, texts.as_slice()) {
        Ok(names) => Ok(Some(names)),
        Err(fault) => Err(fail_to_make(rt, &fault, texts.as_slice())),
    }
}
