//! The content of the old list, before the lines are added.

ghost use Rattle.std.specs.Prelude.{◌≡◌, [], IfErr, IfOk, Ok, false, option_map};
ghost use Rattle.std.specs.Option.{ForSome};
ghost use Rattle.krl_entries.specs.Revocations.{Means, nothing};
ghost use Rattle.krl_make.specs.Making.{base_of, new_base};
ghost use Rattle.krl_make.specs.Over.{IsReadOver, IsUnread};

use crate::run::Wanted;
use byte_streams::Source;
use krl_core::{Header, Revocations, read_krl};
use run_faults::{Cause, FileFault, RunFault, cause_of};
use span_sets::Held;
use ssh_wire::Bytes;
use std::alloc::Global;

/// The content of an old list. It is empty if there is none.
#[derive(Drop)]
pub struct Base {
    /// The version of the old list, if there is one.
    pub version: Option<u64>,
    /// The comment of the old list. It is empty if there is none.
    pub comment: Bytes,
    /// The revocations of the old list, if there is one.
    pub revocations: Revocations<Held>,
}

/// Reads the old list, if it is updated.
pub fn read_base<'a, R: Source + Drop>(
    alloc: Global,
    wanted: &Wanted<'a>,
    old: Option<R>,
) -> Result<Base, RunFault<'a>>
    requires { ForSome old (λ reader. R.has_failed reader ≡ false) }
    ensures read { IfOk result (λ base.
        IsReadOver wanted.now.update (option_map R.left old) (Ok base)) }
    ensures refused { IfErr result (IsUnread wanted.now (option_map R.left old)) }
{
    if !wanted.update {
        return Ok(new_base(alloc));
    }
    let Some(reader) = old else {
        return Err(RunFault::whole(wanted.name, Cause::File(FileFault::Open)));
    };
    let (read, _reader) = read_krl::<Held, R>(alloc, reader);
    match read {
        Ok((header, revocations)) => Ok(base_of(header, revocations)),
        Err(fault) => Err(RunFault::whole(wanted.name, cause_of(fault))),
    }
}

// The base of a new list.
fn new_base(alloc: Global) -> Base
    ensures base { result ≡ new_base }
    ensures nothing { Means nothing [] }
{
    Base {
        version: None,
        comment: Bytes::from_vec(Vec::new(alloc)),
        revocations: Revocations::new(alloc),
    }
}

// The base that a list gives.
fn base_of(header: Header, revocations: Revocations<Held>) -> Base
    ensures { result ≡ base_of header revocations }
{
    Base {
        version: Some(header.version),
        comment: header.comment,
        revocations,
    }
}
