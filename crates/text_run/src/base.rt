//! The part of the list under a name that a new list takes over.

ghost use Rattle.std.specs.Prelude.{◌≡◌, Err, IfErr, IfOk, Ok, false, option_map};
ghost use Rattle.std.specs.Option.{ForSome};
ghost use Rattle.run_faults.specs.RunFault.{krl_cause};
ghost use Rattle.text_run.specs.Base.{IsReadOver, IsTaken, IsUnread, IsUntaken, base_of, new_base};

use crate::ahead::Ahead;
use crate::inputs::{Inputs, Over};
use byte_streams::Source;
use krl_core::{Header, KrlFault, Revocations, read_krl};
use run_faults::{Cause, FileFault, cause_of};
use span_sets::Held;
use ssh_wire::Bytes;
use std::alloc::Global;

/// The part of the list under a name that a new list takes over: nothing, if there is none.
#[derive(Drop)]
pub(crate) struct Base {
    /// The version of the old list.
    pub(crate) version: Option<u64>,
    /// Its comment, if the new list has it too.
    pub(crate) comment: Bytes,
    /// The revocations of the old list, if the new list has them too.
    pub(crate) revocations: Revocations<Held>,
    /// The revocations of the old list, if the new list does not take them over.
    pub(crate) before: Revocations<Held>,
}

/// The part of the old list that the new one takes over, which is read to its end. An empty file is
/// none where the version is given.
pub(crate) fn read_base<R: Source + Drop>(
    alloc: Global,
    inputs: &Inputs<'_>,
    old: Option<R>,
) -> Result<Base, Cause>
    requires { ForSome old (λ reader. R.has_failed reader ≡ false) }
    ensures read { IfOk result (λ base.
        IsReadOver inputs.now.over inputs.now.version (option_map R.left old) (Ok base)) }
    ensures unread { IfErr result
        (IsUnread inputs.now.over inputs.now.version (option_map R.left old)) }
{
    match (inputs.over, old) {
        (Over::Nothing, _) | (Over::Version, None) => Ok(new_base(alloc)),
        (Over::Contents, None) => Err(Cause::File(FileFault::Open)),
        (Over::Version, Some(reader)) if inputs.version.is_some() => match Ahead::over(reader) {
            Ok(Some(reader)) => read(alloc, inputs.over, reader),
            Ok(None) => Ok(new_base(alloc)),
            Err(_) => Err(cause_of(KrlFault::Read)),
        },
        (Over::Version, Some(reader)) => read(alloc, inputs.over, reader),
        (Over::Contents, Some(reader)) => read(alloc, inputs.over, reader),
    }
}

// The part that the new list takes over of the one that a reader gives.
fn read<R: Source + Drop>(alloc: Global, over: Over, reader: R) -> Result<Base, Cause>
    requires { R.has_failed reader ≡ false }
    ensures read { IfOk result (λ base. IsTaken over (R.left reader) (Ok base)) }
    ensures unread { IfErr result (IsUntaken over (R.left reader)) }
{
    let (read, _reader) = read_krl::<Held, R>(alloc, reader);
    match read {
        Ok((header, revocations)) => Ok(base_of(alloc, over, header, revocations)),
        Err(fault) => Err(cause_of(fault)),
    }
}

// The part that the new list takes over of a list.
fn base_of(alloc: Global, over: Over, header: Header, revocations: Revocations<Held>) -> Base
    ensures { result ≡ base_of over header revocations }
{
    let version = Some(header.version);
    match over {
        Over::Contents => Base {
            version,
            comment: header.comment,
            revocations,
            before: Revocations::new(alloc),
        },
        Over::Nothing | Over::Version => Base {
            version,
            before: revocations,
            ..new_base(alloc)
        },
    }
}

// The base of a list that follows no other.
fn new_base(alloc: Global) -> Base
    ensures { result ≡ new_base }
{
    Base {
        version: None,
        comment: Bytes::from_vec(Vec::new(alloc)),
        revocations: Revocations::new(alloc),
        before: Revocations::new(alloc),
    }
}
