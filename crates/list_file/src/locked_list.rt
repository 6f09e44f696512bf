//! Where a list is written, locked against other updates of it.

ghost use Rattle.std.specs.Prelude.{◌≡◌, ◌≢◌, IfOk, IsSome, IsTrue, None, true};
ghost use Rattle.std.specs.Fs.{metadata_len};
ghost use Rattle.std.specs.IoError.{error_kind};

use crate::leftovers::remove_left;
use crate::locking::{Lock, is_being_written, lock_beside, lock_from_writers, lock_list, unlock};
use crate::names::followed;
use crate::waiting::Waiting;
use run_faults::{Cause, FileFault};
use std::fs::{self, File, Metadata, OpenOptions};
use std::io::{self, ErrorKind, Seek, SeekFrom};
use std::os::unix::fs::MetadataExt;

/// The source of the new list, besides its lines.
#[derive(Clone, Copy, PartialEq, Eq)]
pub enum MadeOf {
    /// Nothing: it is a new list.
    Lines,
    /// The list with this name, which is read once it is held.
    List,
    /// The bytes from a pipe or a device.
    Stream,
}

/// Where a list is written.
#[derive(Drop)]
pub enum FileTarget {
    /// Over an existing list.
    List(OldList),
    /// At this path, where no file exists.
    Free(String),
    /// Into a pipe or a device.
    Stream(File),
}

impl FileTarget {
    // Whether there is an old list.
    pub(crate) fn is_list(&self) -> bool {
        matches!(self, FileTarget::List(_))
    }

    // Whether the old list was changed since it was opened, or since it is read again.
    pub(crate) fn is_stale(&self) -> bool {
        match self {
            FileTarget::List(old) => old.is_changed(),
            FileTarget::Free(_) | FileTarget::Stream(_) => false,
        }
    }
}

/// A regular file that a list replaces.
#[derive(Drop)]
pub struct OldList {
    /// The file, open for writing.
    pub file: File,
    /// Its metadata when it was opened.
    pub found: Metadata,
    /// Its path, with links followed.
    pub path: String,
    /// The file that replaced it there, if it was changed before that.
    pub(crate) put: Option<PutList>,
}

// A list that was put at a path, locked, so that no update writes it in place meanwhile.
#[derive(Drop)]
pub(crate) struct PutList {
    pub(crate) file: File,
    pub(crate) found: Metadata,
}

impl OldList {
    // A file that no list has replaced.
    fn new(file: File, found: Metadata, path: String) -> OldList
        ensures { result.put ≡ None }
    {
        let put = None;
        OldList {
            file,
            found,
            path,
            put,
        }
    }

    /// Whether the file was written to since its metadata was read. Its time and its length tell.
    pub fn is_changed(&self) -> bool {
        match self.file.metadata() {
            Ok(now) => !is_unchanged(&now, &self.found),
            Err(_) => true,
        }
    }

    // Whether a list was written to this file, whole, since its metadata was read.
    pub(crate) fn has_new_list(&self) -> bool {
        self.is_changed() && !is_being_written(&self.file)
    }

    // The file at the path, as far as this update knows.
    pub(crate) fn at_path(&self) -> &Metadata
        ensures { self.now.put ≡ None → result.now ≡ self.now.found }
    {
        match &self.put {
            Some(put) => &put.found,
            None => &self.found,
        }
    }

    // Whether the file that this update knows of is still at the path, and was not written to.
    pub(crate) fn is_in_place(&self, rt: &HostRuntime) -> bool {
        match fs::symlink_metadata(rt, &self.path) {
            Ok(found) => is_same(&found, self.at_path()) && is_unchanged(&found, self.at_path()),
            Err(_) => false,
        }
    }

    // Begins to read the file again, if a list of this update is at its path that replaced it after
    // it was changed: the list that was put now, if any, otherwise an earlier one. A list that is
    // made of that one again would have nothing of the change. Returns whether it did.
    pub(crate) fn follow(&mut self, rt: &HostRuntime, put: Option<PutList>) -> io::Result<bool>
        ensures same { self.new.file ≡ self.old.file }
        ensures put { IsSome put → IfOk result (λ is_followed. is_followed ≡ true) }
    {
        if put.is_some() {
            self.put = put;
        } else if self.put.is_none() || !self.is_in_place(rt) {
            return Ok(false);
        }
        self.found = self.file.metadata()?;
        let mut file = &self.file;
        file.seek(SeekFrom::Start(0))?;
        Ok(true)
    }
}

/// Where a list is written. No other update reads or writes it while this is held.
#[derive(Drop)]
pub struct Locked {
    /// The target.
    pub target: FileTarget,
    // None if a list is written in place, since it is locked itself, and for a stream.
    pub(crate) lock: Option<Lock>,
}

// The file to which a name refers.
#[derive(Drop)]
enum Opened {
    List(File, Metadata),
    Nothing,
    Stream(File),
}

/// Where to write the list with this name, once no other update holds it; none if the name leads to
/// another file by then. It is opened for writing, and also for reading if the list is made from
/// it, so a user who may not do that, or may not follow the link to it, gets an error. A list that
/// is made from a stream is written only to a stream, and a list that is made from a list never to
/// a stream.
pub fn lock_target(
    rt: &HostRuntime,
    name: &str,
    made_of: MadeOf,
    waiting: &mut Waiting,
) -> Result<Option<Locked>, Cause> {
    // A link that is created later is not followed.
    let path = path_of(rt, name)?;
    let list = match (named(rt, name, made_of)?, made_of) {
        (Opened::Stream(file), MadeOf::Lines | MadeOf::Stream) => {
            return Ok(Some(Locked {
                target: FileTarget::Stream(file),
                lock: None,
            }));
        }
        (Opened::List(_, found), MadeOf::Lines | MadeOf::List) => Some(found),
        (Opened::Nothing, MadeOf::Lines) => None,
        _ => return Err(Cause::File(FileFault::Open)),
    };
    let lock = lock_beside(rt, path.as_str(), list.as_ref(), waiting)?;
    let target = match &lock {
        Some(_) => {
            remove_left(rt, path.as_str());
            beside_lock(rt, name, path, made_of, waiting)
        }
        None => in_place(rt, name, path, made_of, waiting),
    };
    match target {
        Ok(Some(target)) => Ok(Some(Locked { target, lock })),
        Ok(None) => {
            unlock_all(rt, lock);
            Ok(None)
        }
        Err(cause) => {
            unlock_all(rt, lock);
            Err(cause)
        }
    }
}

/// Lets other updates continue.
pub fn release(rt: &HostRuntime, locked: Locked) {
    unlock_all(rt, locked.lock);
}

fn unlock_all(rt: &HostRuntime, lock: Option<Lock>) {
    if let Some(lock) = lock {
        unlock(rt, lock);
    }
}

// The file to which the name refers once the lock beside it is taken, if that is still at the path.
fn beside_lock(
    rt: &HostRuntime,
    name: &str,
    path: String,
    made_of: MadeOf,
    waiting: &mut Waiting,
) -> Result<Option<FileTarget>, Cause> {
    match named(rt, name, made_of)? {
        Opened::List(file, found) if leads_to_path(rt, name, path.as_str(), Some(&found))? => {
            if made_of == MadeOf::List {
                lock_from_writers(rt, &file, waiting)?;
            }
            Ok(Some(FileTarget::List(OldList::new(file, found, path))))
        }
        Opened::Nothing if leads_to_path(rt, name, path.as_str(), None)? => {
            Ok(Some(FileTarget::Free(path)))
        }
        _ => Ok(None),
    }
}

// The list to be written in place, locked.
fn in_place(
    rt: &HostRuntime,
    name: &str,
    path: String,
    made_of: MadeOf,
    waiting: &mut Waiting,
) -> Result<Option<FileTarget>, Cause> {
    match named(rt, name, made_of)? {
        Opened::List(file, _) => {
            lock_list(rt, &file, waiting)?;
            let Ok(found) = file.metadata() else {
                return Err(Cause::File(FileFault::Open));
            };
            if leads_to_path(rt, name, path.as_str(), Some(&found))? {
                Ok(Some(FileTarget::List(OldList::new(file, found, path))))
            } else {
                Ok(None)
            }
        }
        Opened::Nothing if made_of == MadeOf::Lines => Err(Cause::File(FileFault::Open)),
        _ => Ok(None),
    }
}

// Opens what the name refers to.
fn named(rt: &HostRuntime, name: &str, made_of: MadeOf) -> Result<Opened, Cause> {
    let mut options = OpenOptions::new();
    options.read(made_of == MadeOf::List).write(true);
    let file = match options.open(rt, name) {
        Ok(file) => file,
        Err(error) if error.kind() == ErrorKind::NotFound && !name.is_empty() => {
            return Ok(Opened::Nothing);
        }
        Err(_) => return Err(Cause::File(FileFault::Open)),
    };
    match file.metadata() {
        Ok(found) if found.is_file() => Ok(Opened::List(file, found)),
        Ok(_) => Ok(Opened::Stream(file)),
        Err(_) => Err(Cause::File(FileFault::Open)),
    }
}

// The path of the file to which the name leads.
fn path_of(rt: &HostRuntime, name: &str) -> Result<String, Cause> {
    followed(rt, name).map_err(|error| unopened(&error))
}

// Whether the name still leads to the path, and the old list is there, or no file if there is no
// old list.
fn leads_to_path(
    rt: &HostRuntime,
    name: &str,
    path: &str,
    old: Option<&Metadata>,
) -> Result<bool, Cause> {
    Ok(path_of(rt, name)?.as_str() == path && is_at(rt, path, old))
}

// Whether the old list is at this path, or no file if there is no old list. Its name may have led
// to it in another way, like a link in `/proc`, or may refer to another file by now.
pub(crate) fn is_at(rt: &HostRuntime, path: &str, old: Option<&Metadata>) -> bool {
    match (fs::symlink_metadata(rt, path), old) {
        (Ok(found), Some(old)) => is_same(&found, old),
        (Err(error), None) => error.kind() == ErrorKind::NotFound,
        _ => false,
    }
}

// Whether a file that had these metadata was not written to until it had those.
pub(crate) fn is_unchanged(now: &Metadata, before: &Metadata) -> bool
    ensures { IsTrue result → metadata_len now.now ≡ metadata_len before.now }
{
    let moment = (before.mtime(), before.mtime_nsec());
    (now.mtime(), now.mtime_nsec()) == moment && now.size() == before.size()
}

// Whether both are metadata of the same file.
pub(crate) fn is_same(left: &Metadata, right: &Metadata) -> bool {
    left.dev() == right.dev() && left.ino() == right.ino()
}

// Why a list could not be opened.
pub(crate) fn unopened(error: &io::Error) -> Cause
    ensures memory { error_kind error.now ≡ ErrorKind.OutOfMemory → result ≡ Cause.NoMemory }
    ensures other { error_kind error.now ≢ ErrorKind.OutOfMemory
        → result ≡ Cause.File FileFault.Open }
{
    if error.kind() == ErrorKind::OutOfMemory {
        Cause::NoMemory
    } else {
        Cause::File(FileFault::Open)
    }
}
