//! Replacing a list whole or not at all: its bytes are written to a new file beside it, which is
//! then renamed.

ghost use Rattle.std.specs.Prelude.{◌≡◌, ℕ, IfOk, Ok, length};

use crate::in_place::{send_all, write_in_place};
use crate::locked_list::{FileTarget, Locked, OldList, PutList, is_at, is_same, unopened};
use crate::locking::lock_new;
use crate::names::{beside, new_name};
use crate::rights::{first_mode, keep_rights};
use run_faults::Cause;
use std::fs::{self, File, Metadata, OpenOptions};
use std::io::{self, ErrorKind};
use std::os::unix::fs::{MetadataExt, OpenOptionsExt};

// How many names are tried for the new file.
const TRIES: usize = 16;
// The fault of a new file that does not replace the list: no byte of it counts as written.
const UNWRITTEN: Cause = Cause::Output { count: 0 };

/// The result of writing a list.
#[derive(Clone, Copy)]
pub enum Written {
    /// The whole list is written under its name: this number of bytes.
    Whole(u64),
    /// Its name leads to another file by now, or that file was changed. The list must be made anew.
    Elsewhere,
    /// A list of this update is under its name, but the old list was changed right before that. The
    /// list must be made again, of the old one as it is now.
    Changed,
}

// The result of one attempt, with the file that replaced an old list which was changed.
#[derive(Drop)]
enum Put {
    Whole(u64),
    Elsewhere,
    Over(PutList),
}

// A new file with all bytes of a list: its metadata, and how many bytes were written.
#[derive(Drop)]
struct Finished {
    found: Metadata,
    count: u64,
}

// The name and the path of a list.
#[derive(Clone, Copy)]
struct Destination<'a> {
    // The name, as the user gave it.
    name: &'a str,
    // The path, with links followed.
    path: &'a str,
    old: Option<&'a OldList>,
}

/// Writes a list under its name. On a fault an old list is unchanged, unless its folder takes no
/// new file.
pub fn write_list(
    rt: &HostRuntime,
    name: &str,
    locked: &mut Locked,
    text: &[u8],
) -> Result<Written, Cause>
    ensures all { (count : ℕ) → result ≡ Ok (Written.Whole count) → count ≡ length text.now }
{
    let put = match put_list(rt, name, locked, text)? {
        Put::Whole(count) => return Ok(Written::Whole(count)),
        Put::Elsewhere => None,
        Put::Over(put) => Some(put),
    };
    match &mut locked.target {
        FileTarget::List(old) => match old.follow(rt, put) {
            Ok(true) => Ok(Written::Changed),
            Ok(false) => Ok(Written::Elsewhere),
            Err(error) => Err(unopened(&error)),
        },
        _ => Ok(Written::Elsewhere),
    }
}

// Writes a list under its name.
fn put_list<'a>(
    rt: &HostRuntime,
    name: &'a str,
    locked: &'a Locked,
    text: &[u8],
) -> Result<Put, Cause>
    ensures all { (count : ℕ) → result ≡ Ok (Put.Whole count) → count ≡ length text.now }
{
    match &locked.target {
        FileTarget::List(list) => {
            let path = list.path.as_str();
            let old = Some(list);
            let destination = Destination { name, path, old };
            match &locked.lock {
                Some(_) => replace(rt, destination, text),
                None => overwrite(rt, destination, list, text),
            }
        }
        FileTarget::Free(path) => {
            let path = path.as_str();
            let old = None;
            replace(rt, Destination { name, path, old }, text)
        }
        FileTarget::Stream(file) => match send_all(file, text) {
            Ok(count) => Ok(Put::Whole(count)),
            Err(count) => Err(Cause::Output { count }),
        },
    }
}

// Writes the list in place. This counts only if the name still leads to the file afterwards.
fn overwrite(
    rt: &HostRuntime,
    destination: Destination<'_>,
    old: &OldList,
    text: &[u8],
) -> Result<Put, Cause>
    ensures all { (count : ℕ) → result ≡ Ok (Put.Whole count) → count ≡ length text.now }
{
    if !is_as_opened(rt, old) {
        return Ok(Put::Elsewhere);
    }
    match write_in_place(&old.file, text) {
        Ok(count) if is_named(rt, destination, &old.found) => Ok(Put::Whole(count)),
        Ok(_) => Ok(Put::Elsewhere),
        Err(count) => Err(Cause::Output { count }),
    }
}

// Writes the list to a new file, which replaces the old one.
fn replace(rt: &HostRuntime, destination: Destination<'_>, text: &[u8]) -> Result<Put, Cause>
    ensures all { (count : ℕ) → result ≡ Ok (Put.Whole count) → count ≡ length text.now }
{
    let new = match create_beside(rt, destination) {
        Ok(new) => new,
        Err(error) => return Err(unopened(&error)),
    };
    let fault = match finish(&new.file, destination.old, text) {
        Ok(finished) => match give_name(rt, new.path.as_str(), destination) {
            Ok(true) => {
                let Finished { found, count } = finished;
                let file = new.file;
                return Ok(put_at(rt, destination, PutList { file, found }, count));
            }
            Ok(false) => None,
            Err(cause) => Some(cause),
        },
        Err(cause) => Some(cause),
    };
    let _ = fs::remove_file(rt, new.path.as_str());
    match fault {
        Some(cause) => Err(cause),
        None => Ok(Put::Elsewhere),
    }
}

// Says how the new list, which has `count` bytes, got its name. The old list may have been written
// in place right before that, by an update that ended well.
fn put_at(rt: &HostRuntime, destination: Destination<'_>, put: PutList, count: u64) -> Put
    ensures all { (other : ℕ) → result ≡ Put.Whole other → other ≡ count }
{
    sync_folder(rt, destination.path);
    if destination.old.is_some_and(|old| old.has_new_list()) {
        return Put::Over(put);
    }
    if is_named(rt, destination, &put.found) {
        Put::Whole(count)
    } else {
        Put::Elsewhere
    }
}

// The new file, until it has the name of the list.
#[derive(Drop)]
struct NewFile {
    file: File,
    path: String,
}

// A new file in the folder of the list.
fn create_beside(rt: &HostRuntime, destination: Destination<'_>) -> io::Result<NewFile> {
    let mut options = OpenOptions::new();
    options.write(true).create_new(true);
    options.mode(first_mode(destination.old.map(|old| &old.found)));
    for _ in 0..TRIES {
        let path = new_name(rt, destination.path)?;
        match options.open(rt, path.as_str()) {
            Ok(file) => return Ok(NewFile { file, path }),
            Err(error) if error.kind() == ErrorKind::AlreadyExists => {}
            Err(error) => return Err(error),
        }
    }
    Err(io::Error::from(ErrorKind::AlreadyExists))
}

// Writes and syncs a new file before it gets the name of the list. Synced, it loses no byte if
// closing it fails.
fn finish(file: &File, old: Option<&OldList>, text: &[u8]) -> Result<Finished, Cause>
    ensures all { IfOk result (λ finished. finished.count ≡ length text.now) }
{
    if let Some(old) = old {
        lock_new(file);
        if keep_rights(file, &old.found).is_err() {
            return Err(UNWRITTEN);
        }
    }
    let Ok(count) = send_all(file, text) else {
        return Err(UNWRITTEN);
    };
    if file.sync_all().is_err() {
        return Err(UNWRITTEN);
    }
    match file.metadata() {
        Ok(found) => Ok(Finished { found, count }),
        Err(_) => Err(UNWRITTEN),
    }
}

// Gives the new file the name of the list. If no file had the name, a link is made, which succeeds
// only if the name is still free, so that no file is replaced that was created meanwhile. If no
// link can be made, as on some file systems, and if there is an old list, the name is checked
// directly before the new file is renamed. Returns false if it leads elsewhere, or the old list was
// changed.
fn give_name(rt: &HostRuntime, new: &str, destination: Destination<'_>) -> Result<bool, Cause> {
    if destination.old.is_none() && fs::hard_link(rt, new, destination.path).is_ok() {
        let _ = fs::remove_file(rt, new);
        return Ok(true);
    }
    let is_ready = match destination.old {
        Some(old) => is_as_opened(rt, old),
        None => is_at(rt, destination.path, None),
    };
    if !is_ready {
        return Ok(false);
    }
    match fs::rename(rt, new, destination.path) {
        Ok(()) => Ok(true),
        Err(_) => Err(UNWRITTEN),
    }
}

// Whether the old list, or the one that replaced it, is still at its path, and neither was written
// to since.
fn is_as_opened(rt: &HostRuntime, old: &OldList) -> bool {
    !old.is_changed() && old.is_in_place(rt)
}

// Follows the name once more, and returns whether it leads to the list that was written. If it
// leads to another file or to none, it was changed meanwhile. If it leads to the old list, which
// has no name any more, it is a link in `/proc`. Where it cannot be followed for another reason,
// the path tells: a list that is there is not made again, over itself.
fn is_named(rt: &HostRuntime, destination: Destination<'_>, put: &Metadata) -> bool {
    match fs::metadata(rt, destination.name) {
        Ok(found) => {
            is_same(&found, put)
                || found.nlink() == 0
                    && destination
                        .old
                        .is_some_and(|old| is_same(&found, &old.found))
        }
        Err(error) => {
            !matches!(
                error.kind(),
                ErrorKind::NotFound | ErrorKind::FilesystemLoop
            ) && is_at(rt, destination.path, Some(put))
        }
    }
}

// Syncs the folder if possible, so that the new name survives if the machine stops. The list has
// its name already, so it is no fault if the folder cannot be synced.
fn sync_folder(rt: &HostRuntime, path: &str) {
    if let Ok(folder) = beside(rt.alloc(), path, ".")
        && let Ok(folder) = fs::open(rt, folder.as_str())
    {
        let _ = folder.sync_all();
    }
}
