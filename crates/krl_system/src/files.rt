//! The files that the command line names.

ghost use Rattle.std.specs.Prelude.{◌≡◌, IfOk, IfSome, map, take};
ghost use Rattle.krl_job.specs.Job.{authority_of};
ghost use Rattle.krl_system.specs.Files.{authority_name, name_of, now_of};

use byte_streams::FromRead;
use krl_job::AuthorityOption;
use list_making::{buffered, read_rest};
use run_faults::{Cause, FileFault, Named, RunFault, load};
use ssh_wire::Bytes;
use std::alloc::Global;
use std::fs::{self, File};
use std::io::{BufReader, Read};

// One byte more than a list may have, so that a longer one has its first fault.
const MOST: u64 = 67_108_865;

/// The list with this name, with a buffer.
pub fn open_list(rt: &HostRuntime, name: &str) -> Result<BufReader<File>, Cause> {
    match fs::open(rt, name) {
        Ok(file) => buffered(rt.alloc(), file),
        Err(_) => Err(Cause::File(FileFault::Open)),
    }
}

/// The bytes of a list's file: of a longer one, one byte more than a list may have, so that it has
/// its first fault.
pub fn read_list<R: Read + Drop>(alloc: Global, file: R) -> Result<Bytes, Cause>
    ensures { IfOk result (λ bytes. IfSome (R.remaining file) (λ left.
        bytes ≡ take 67108865 left)) }
{
    read_rest(alloc, FromRead::new(file.take(MOST)), MOST)
}

/// The file with this name.
pub fn open<'a>(rt: &HostRuntime, name: &'a str) -> Named<'a>
    ensures { result.name ≡ name.now }
{
    match fs::open(rt, name) {
        Ok(file) => load(rt.alloc(), name, FromRead::new(file)).0,
        Err(_) => Named {
            name,
            content: Err(FileFault::Open),
        },
    }
}

/// The file with this name, or standard input if the name is `-`.
pub fn open_or_input<'a>(rt: &HostRuntime, name: &'a str) -> Named<'a>
    ensures { result.name ≡ name.now }
{
    if name == "-" {
        load(rt.alloc(), name, FromRead::new(rt.stdin())).0
    } else {
        open(rt, name)
    }
}

/// The files with these names. Each `-` is standard input if that may be read.
pub fn open_files<'a>(
    rt: &HostRuntime,
    names: &[&'a str],
    may_read_input: bool,
) -> Result<Vec<Named<'a>>, RunFault<'a>>
    ensures { IfOk result (λ files. map name_of files.items ≡ map now_of names.now) }
{
    let mut files = Vec::new(rt.alloc());
    for name in names {
        let name = *name;
        let file = if may_read_input {
            open_or_input(rt, name)
        } else {
            open(rt, name)
        };
        if files.push(file).is_err() {
            return Err(RunFault::whole(name, Cause::NoMemory));
        }
    }
    Ok(files)
}

/// The authority of `-s`, with its file read.
pub fn open_authority<'a>(
    rt: &HostRuntime,
    name: &AuthorityOption<&'a str>,
) -> AuthorityOption<Named<'a>>
    ensures { authority_name result ≡ authority_of name.now }
{
    match name {
        AuthorityOption::NotGiven => AuthorityOption::NotGiven,
        AuthorityOption::All => AuthorityOption::All,
        AuthorityOption::File(name) => AuthorityOption::File(open(rt, *name)),
    }
}
