//! Lists that are read by the names of their files.

ghost use Rattle.std.specs.Prelude.{◌≡◌, ◌∷◌, [], IfErr, IfOk, List as ListOf, Option};
ghost use Rattle.any_list.specs.List.{IsGiven, IsRefused};
ghost use Rattle.any_list.specs.Told.{ListRead, Reading, Tells, told_more};

use crate::list::{List, read_list};
use run_faults::{Cause, RunFault};
use ssh_wire::Bytes;
use std::alloc::Global;

/// The files of lists that a run may read.
pub trait Lists {
    // what was read so far, if that is known
    ghost told: { Self → Option (ListOf Reading) };

    /// The bytes of the file of this name, or why they are not read. The first 67,108,865 of a list
    /// that is too long are enough.
    fn read(&mut self, alloc: Global, name: &str) -> Result<Bytes, Cause>
        ensures { told self.new ≡ told_more (told self.old) (ListRead name.now result ∷ []) };
}

/// A list that was read by its name, and the bytes of its file.
#[derive(Drop)]
pub struct Given<'a> {
    pub list: List<'a>,
    pub bytes: Bytes,
}

/// Reads the list of this name, or says why it is refused.
pub fn read_given<'a, L: Lists>(
    alloc: Global,
    lists: &mut L,
    name: &'a str,
) -> Result<Given<'a>, RunFault<'a>>
    ensures found { IfOk result (λ given. Tells (L.told lists.old) (L.told lists.new)
        (λ told. IsGiven told name.now given.bytes given.list)) }
    ensures fault { IfErr result (λ stop. Tells (L.told lists.old) (L.told lists.new)
        (λ told. IsRefused told name.now stop)) }
{
    let bytes = match lists.read(alloc, name) {
        Ok(bytes) => bytes,
        Err(cause) => return Err(RunFault::whole(name, cause)),
    };
    match read_list(alloc, name, bytes.as_slice()) {
        Ok(list) => Ok(Given { list, bytes }),
        Err(fault) => Err(fault),
    }
}
