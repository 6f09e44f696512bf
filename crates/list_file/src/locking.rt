//! The lock of an update: a file beside the list that exists while the update is at work.

ghost use Rattle.std.specs.Prelude.{◌≡◌, ◌↔◌, ◌⊎◌, IsTrue};
ghost use Rattle.std.specs.Fs.{IsFile, file_type};

use crate::locked_list::{is_same, unopened};
use crate::names::{lock_name, new_name};
use crate::rights::{CLOSED, is_of_writer, share_lock};
use crate::waiting::{TURNS, Waiting};
use run_faults::{Cause, FileFault};
use std::fs::{self, File, Metadata, OpenOptions, TryLockError};
use std::io::{self, ErrorKind};
use std::os::unix::fs::{FileExt, MetadataExt, OpenOptionsExt};

// The number of the error ENOLCK on Linux: there are no locks.
const NO_LOCKS: i32 = 37;
// The offset of a list's format version, and the version of a list that is being written in place.
const VERSION_AT: u64 = 8;

const NO_VERSION: [u8; 4] = [0xff; 4];

/// The file of a lock, locked.
#[derive(Drop)]
pub struct Lock {
    file: File,
    found: Metadata,
    path: String,
}

// The lock that is asked for.
#[derive(Clone, Copy)]
struct Asking<'a> {
    // Its name, beside the path of the list.
    name: &'a str,
    path: &'a str,
    // The list, if there is one.
    list: Option<&'a Metadata>,
}

// The result of one attempt to take the lock.
#[derive(Drop)]
enum Asked {
    // It is taken.
    Locked(File, Metadata),
    // Another update has it, or nobody may take it.
    Busy,
    // Another user's update has it.
    Refused,
    // The folder takes no new file.
    NoFile,
}

// The lock beside the path of a list; none if its folder takes no new file. Users who may write the
// list can open the file of the lock; users who may only read the list cannot.
pub(crate) fn lock_beside(
    rt: &HostRuntime,
    path: &str,
    list: Option<&Metadata>,
    waiting: &mut Waiting,
) -> Result<Option<Lock>, Cause> {
    let name = match lock_name(rt.alloc(), path) {
        Ok(name) => name,
        Err(error) => return Err(unopened(&error)),
    };
    let asked = Asking {
        name: name.as_str(),
        path,
        list,
    };
    let mut known = None;
    let mut was_refused = false;
    for _ in 0..=TURNS {
        match ask(rt, asked, &mut known) {
            Ok(Asked::Locked(file, found)) => {
                let path = name;
                return Ok(Some(Lock { file, found, path }));
            }
            Ok(Asked::NoFile) => return Ok(None),
            Ok(Asked::Refused) if !was_refused => {
                was_refused = true;
                if maker(rt, path).map_err(|error| unopened(&error))?.is_none() {
                    return Ok(None);
                }
            }
            Ok(Asked::Refused | Asked::Busy) => {}
            Err(error) => return Err(unopened(&error)),
        }
        waiting.wait(rt)?;
    }
    Err(Cause::File(FileFault::Locked))
}

// Tries to take the lock once. If the name is a link or another file, it is neither followed nor
// written to.
fn ask(rt: &HostRuntime, asked: Asking<'_>, known: &mut Option<Option<u32>>) -> io::Result<Asked> {
    let mut options = OpenOptions::new();
    options.read(true).write(true).create_new(true).mode(CLOSED);
    match options.open(rt, asked.name) {
        Ok(file) => ask_new(rt, asked.name, file, asked.list),
        Err(error) if error.kind() == ErrorKind::AlreadyExists => ask_other(rt, asked, known),
        Err(error) if takes_no_file(error.kind()) => Ok(Asked::NoFile),
        Err(error) => Err(error),
    }
}

// Takes the lock with a file that was created for it.
fn ask_new(rt: &HostRuntime, name: &str, file: File, list: Option<&Metadata>) -> io::Result<Asked> {
    let asked = lock_named(rt, name, file);
    match (&asked, list) {
        (Ok(Asked::Locked(file, _)), Some(list)) => share_lock(file, list),
        (Err(_), _) => {
            let _ = fs::remove_file(rt, name);
        }
        _ => {}
    }
    asked
}

// Takes the lock with a file that exists already, of an update that is at work or was killed. Only
// a file of someone who may write the list is opened: another user could make the call wait, by a
// lease on the file. The opened file is looked at again, since it may be another one by then. A
// pipe that is opened to be read and written makes no call wait.
fn ask_other(
    rt: &HostRuntime,
    asked: Asking<'_>,
    known: &mut Option<Option<u32>>,
) -> io::Result<Asked> {
    let user = match *known {
        Some(user) => user,
        None => maker(rt, asked.path)?,
    };
    *known = Some(user);
    let Some(found) = seen(rt, asked.name)? else {
        return Ok(Asked::Busy);
    };
    if !is_acceptable(&found, asked.list, user) {
        return Ok(Asked::Busy);
    }
    let mut options = OpenOptions::new();
    options.read(true).write(true);
    let file = match options.open(rt, asked.name) {
        Ok(file) => file,
        Err(error) if takes_no_file(error.kind()) => return Ok(Asked::Refused),
        Err(error) if error.kind() == ErrorKind::NotFound => return Ok(Asked::Busy),
        Err(error) => return Err(error),
    };
    let Asked::Locked(file, found) = lock_named(rt, asked.name, file)? else {
        return Ok(Asked::Busy);
    };
    match user {
        None => Ok(Asked::NoFile),
        Some(_) if is_acceptable(&found, asked.list, user) => Ok(Asked::Locked(file, found)),
        Some(_) => Ok(Asked::Busy),
    }
}

// Whether the file may be used as the lock by the user who owns new files beside it. If the folder
// takes no new file, it is only waited for.
fn is_acceptable(found: &Metadata, list: Option<&Metadata>, user: Option<u32>) -> bool
    ensures { IsTrue result → IsFile (file_type found.now) }
{
    found.is_file()
        && match user {
            Some(user) => is_of_writer(found, list, user),
            None => true,
        }
}

// Locks the file, if it still has its name then.
fn lock_named(rt: &HostRuntime, name: &str, file: File) -> io::Result<Asked> {
    if !takes_lock(&file)? {
        return Ok(Asked::Busy);
    }
    let found = file.metadata()?;
    if seen(rt, name)?.is_some_and(|now| is_same(&now, &found)) {
        Ok(Asked::Locked(file, found))
    } else {
        Ok(Asked::Busy)
    }
}

// The metadata of the name itself, which may be a link; none if no file has it.
fn seen(rt: &HostRuntime, name: &str) -> io::Result<Option<Metadata>> {
    match fs::symlink_metadata(rt, name) {
        Ok(found) => Ok(Some(found)),
        Err(error) if error.kind() == ErrorKind::NotFound => Ok(None),
        Err(error) => Err(error),
    }
}

// Tries to lock the file. Returns false if another update has it locked, and true also if there are
// no locks: the file is used without one then.
fn takes_lock(file: &File) -> io::Result<bool> {
    match file.try_lock() {
        Ok(()) => Ok(true),
        Err(TryLockError::WouldBlock) => Ok(false),
        Err(TryLockError::Error(error)) if error.kind() == ErrorKind::Unsupported => Ok(true),
        Err(TryLockError::Error(error)) if error.raw_os_error() == Some(NO_LOCKS) => Ok(true),
        Err(TryLockError::Error(error)) => Err(error),
    }
}

// The user who owns new files in the folder of the path; none if the folder takes no new file.
fn maker(rt: &HostRuntime, path: &str) -> io::Result<Option<u32>> {
    let name = new_name(rt, path)?;
    let mut options = OpenOptions::new();
    options.write(true).create_new(true).mode(CLOSED);
    match options.open(rt, name.as_str()) {
        Ok(file) => {
            let found = file.metadata();
            match fs::remove_file(rt, name.as_str()) {
                // The update that has the lock removes what was left.
                Err(error) if error.kind() != ErrorKind::NotFound => return Err(error),
                _ => {}
            }
            Ok(Some(found?.uid()))
        }
        Err(error) if takes_no_file(error.kind()) => Ok(None),
        Err(error) => Err(error),
    }
}

// Whether the error says that a folder takes no new file, or none with so long a name.
pub(crate) fn takes_no_file(reason: ErrorKind) -> bool
    ensures { IsTrue result ↔ ((reason ≡ ErrorKind.PermissionDenied)
        ⊎ ((reason ≡ ErrorKind.ReadOnlyFilesystem) ⊎ (reason ≡ ErrorKind.InvalidFilename))) }
{
    matches!(
        reason,
        ErrorKind::PermissionDenied | ErrorKind::ReadOnlyFilesystem | ErrorKind::InvalidFilename
    )
}

// Removes the file of a lock, unless the name refers to another file, and then releases the lock.
// An update that was waiting creates a new file.
pub(crate) fn unlock(rt: &HostRuntime, lock: Lock) {
    match fs::symlink_metadata(rt, lock.path.as_str()) {
        Ok(now) if !is_same(&now, &lock.found) => {}
        _ => {
            let _ = fs::remove_file(rt, lock.path.as_str());
        }
    }
    drop(lock);
}

// Locks a list that is to be written in place.
pub(crate) fn lock_list(rt: &HostRuntime, list: &File, waiting: &mut Waiting) -> Result<(), Cause> {
    for _ in 0..=TURNS {
        match takes_lock(list) {
            Ok(true) => return Ok(()),
            Ok(false) => waiting.wait(rt)?,
            Err(error) => return Err(unopened(&error)),
        }
    }
    Err(Cause::File(FileFault::Locked))
}

// Locks a list that is to be replaced, against updates that write it in place. A user who may only
// read it can lock it too, so it is used without the lock, unless it is being written. Whether it
// was changed is looked at afterwards.
pub(crate) fn lock_from_writers(
    rt: &HostRuntime,
    list: &File,
    waiting: &mut Waiting,
) -> Result<(), Cause> {
    for _ in 0..=TURNS {
        match takes_lock(list) {
            Ok(true) => return Ok(()),
            Ok(false) if !is_being_written(list) => return Ok(()),
            Ok(false) => waiting.wait(rt)?,
            Err(error) => return Err(unopened(&error)),
        }
    }
    Err(Cause::File(FileFault::Locked))
}

// Locks a new file before it gets the name of a list, so that no update writes it in place until
// this one is done. No other one has it open, so it is locked if there are locks.
pub(crate) fn lock_new(file: &File) {
    let _ = file.try_lock();
}

// Whether the list has the format version of a list that is being written in place.
pub(crate) fn is_being_written(list: &File) -> bool {
    let mut version = [0; 4];
    list.read_exact_at(&mut version, VERSION_AT).is_ok() && version == NO_VERSION
}
