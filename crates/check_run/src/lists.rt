//! The other lists that a check reads.

ghost use Rattle.std.specs.Prelude.{◌≡◌, IfErr, IfOk, List};
ghost use Rattle.krl_entries.specs.Revocations.{Means};
ghost use Rattle.krl_types.specs.Entry.{Entry};
ghost use Rattle.any_list.specs.Told.{Tells};
ghost use Rattle.check_run.specs.Lists.{IsOtherOf, IsOtherRefused, version_of};
ghost use Rattle.check_run.specs.Limits.{IsLostOf, IsLostUnknown};

use any_list::{Lists, read_given};
use krl_entries::Revocations;
use krl_format::Stated;
use list_diff::difference;
use run_faults::{Cause, RunFault};
use span_sets::Held;
use std::alloc::Global;
use text_entries::NamesByKey;

/// The other list: its name, and its version unless it is a plain list.
#[derive(Clone, Copy)]
pub(crate) struct Other<'a> {
    pub(crate) name: &'a str,
    pub(crate) version: Option<u64>,
}

/// The revocations of another list that the checked one lacks, the name of the other one, and the
/// names of authorities by which they are printed, if some are given.
#[derive(Drop)]
pub(crate) struct Lost<'a, 'n> {
    pub(crate) name: &'a str,
    pub(crate) held: Revocations<Held>,
    pub(crate) names: Option<&'n NamesByKey>,
}

/// Reads the list whose version the checked one must not be below, if there is one, or says why it
/// is refused.
pub(crate) fn read_other<'a, L: Lists>(
    alloc: Global,
    lists: &mut L,
    name: Option<&'a str>,
) -> Result<Option<Other<'a>>, RunFault<'a>>
    ensures found { IfOk result (λ other. Tells (L.told lists.old) (L.told lists.new)
        (λ told. IsOtherOf told name.entry other)) }
    ensures fault { IfErr result (λ stop. Tells (L.told lists.old) (L.told lists.new)
        (λ told. IsOtherRefused told name.entry stop)) }
{
    let Some(name) = name else {
        return Ok(None);
    };
    match read_given(alloc, lists, name) {
        Ok(given) => Ok(Some(Other {
            name,
            version: version_of(given.list.stated()),
        })),
        Err(fault) => Err(fault),
    }
}

/// Reads the list whose names the checked one must have, if there is one, and finds those that it
/// lacks, or says why the other list is refused.
pub(crate) fn read_lost<'a, 'n, L: Lists>(
    alloc: Global,
    lists: &mut L,
    name: Option<&'a str>,
    held: &Revocations<Held>,
    names: Option<&'n NamesByKey>,
) -> Result<Option<Lost<'a, 'n>>, RunFault<'a>>
    ensures found { IfOk result (λ lost. Tells (L.told lists.old) (L.told lists.new)
        (λ told. (own : List Entry) → Means held.now own
        → IsLostOf told own name.entry names.entry lost)) }
    ensures fault { IfErr result (λ stop. Tells (L.told lists.old) (L.told lists.new)
        (λ told. IsLostUnknown told name.entry stop)) }
{
    let Some(name) = name else {
        return Ok(None);
    };
    let other = match read_given(alloc, lists, name) {
        Ok(given) => given.list,
        Err(fault) => return Err(fault),
    };
    match difference(alloc, held, &other.revocations) {
        Ok(held) => Ok(Some(Lost { name, held, names })),
        Err(_) => Err(RunFault::whole(name, Cause::NoMemory)),
    }
}

/// The version of a list. A plain list has none.
pub(crate) fn version_of(stated: Option<Stated>) -> Option<u64>
    ensures { result ≡ version_of stated }
{
    match stated {
        Some(stated) => Some(stated.version),
        None => None,
    }
}
