//! The names that texts give to certificate authorities.

ghost use Rattle.std.specs.Prelude.{◌≡◌, ℕ, List, IfErr, IfOk};
ghost use Rattle.run_faults.specs.declared.cause.Cause.TheVariants.{NoMemory};
ghost use Rattle.text_entries.specs.AuthorityNames.{key_named, name_of};
ghost use Rattle.text_run.specs.Fault.{whole_fault};
ghost use Rattle.text_run.specs.Making.{GivesNames, IsUnnamed, day_at};
ghost use Rattle.text_run.specs.declared.make_fault.MakeCause.TheVariants.{Run};

use crate::adding::add_texts;
use crate::inputs::day_of;
use crate::make_fault::{MakeCause, MakeFault};
use crate::text::Text;
use krl_core::Revocations;
use run_faults::Cause;
use span_sets::Held;
use std::alloc::Global;
use text_entries::{NamesByKey, Standing};

// The name in the fault of names for which there is no memory.
pub(crate) const MEMORY: &str = "memory";

/// The names that texts give to authorities, by their keys, or the first fault of the texts. The
/// date, in seconds since 1970, decides which of their lines are over. Nothing is kept of entries.
pub fn names_in<'a>(
    alloc: Global,
    date: u64,
    texts: &'a [Text<'a>],
) -> Result<NamesByKey, MakeFault<'a>>
    ensures named { IfOk result (GivesNames (day_at date) texts.now) }
    ensures refused { IfErr result (IsUnnamed (day_at date) texts.now) }
{
    let mut unheld: Revocations<Held> = Revocations::new(alloc);
    let standing = match add_texts(alloc, &mut unheld, day_of(date), texts) {
        Ok(standing) => standing,
        Err(fault) => return Err(fault),
    };
    match names_of(&standing, MEMORY) {
        Ok(names) => Ok(names),
        Err(fault) => Err(fault),
    }
}

/// The names that stand after texts, by their keys. A fault has the given name.
pub(crate) fn names_of<'a>(standing: &Standing, name: &'a str) -> Result<NamesByKey, MakeFault<'a>>
    ensures named { (key : List ℕ) → IfOk result
        (λ names. key_named names key ≡ name_of standing.now.names key) }
    ensures refused { IfErr result (λ fault. fault ≡ whole_fault name.now (Run NoMemory)) }
{
    match standing.names().by_key() {
        Ok(names) => Ok(names),
        Err(_) => Err(MakeFault::whole(name, MakeCause::Run(Cause::NoMemory))),
    }
}
