//! The lists that a run shows.

ghost use Rattle.std.specs.Prelude.{IfErr, IfOk};
ghost use Rattle.any_list.specs.Told.{Tells};
ghost use Rattle.show_run.specs.Lists.{AreGiven, StopsReading};

use any_list::{List, Lists, read_given};
use run_faults::{Cause, RunFault};
use std::alloc::Global;

/// Reads the lists of these names, or says why the first one that cannot be read is refused.
pub(crate) fn read_lists<'a, L: Lists>(
    alloc: Global,
    lists: &mut L,
    names: &[&'a str],
) -> Result<Vec<List<'a>>, RunFault<'a>>
    ensures found { IfOk result (λ read. Tells (L.told lists.old) (L.told lists.new)
        (λ told. AreGiven told names.now read.items)) }
    ensures fault { IfErr result (λ stop. Tells (L.told lists.old) (L.told lists.new)
        (λ told. StopsReading told names.now stop)) }
{
    let mut all = Vec::new(alloc);
    for name in names {
        let given = read_given(alloc, lists, *name)?;
        let Ok(()) = all.push(given.list) else {
            return Err(RunFault::whole(*name, Cause::NoMemory));
        };
    }
    Ok(all)
}
