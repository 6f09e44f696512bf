//! The rights of a file that replaces a list.

ghost use Rattle.std.specs.Prelude.{◌≡◌, ◌≤◌, IsNone, IfSome, bit_and};
ghost use Rattle.std.specs.Fs.{metadata_mode};
ghost use Rattle.list_file.specs.Rights.{is_writer, kept_mode, lock_mode, shared_rights};

use std::fs::{File, Metadata, Permissions};
use std::io;
use std::os::unix::fs::{MetadataExt, PermissionsExt, fchown};

// The mode of a list that did not exist, before the user's mask is applied.
const USUAL: u32 = 0o666;
// The mode of a file that only its owner reads and writes.
pub(crate) const CLOSED: u32 = 0o600;
// The permission bits of a mode.
const PERMISSIONS: u32 = 0o7777;

// The mode with which the new file is created. While it is written, only its owner can read a file
// that replaces a list, and has no more rights to it than to the list.
pub(crate) fn first_mode(old: Option<&Metadata>) -> u32
    ensures usual { IsNone old.entry → result ≡ 0o666 }
    ensures closed { IfSome old.entry (λ list. result ≡ bit_and (metadata_mode list.now) 0o600) }
{
    match old {
        Some(old) => old.mode() & CLOSED,
        None => USUAL,
    }
}

// Gives a new file the group, the owner and the mode of the old list, the first two if the user may
// do that. Each is set by a call of its own, so that an error of one does not prevent the other.
// The mode is set last, once the owner and the group are known.
pub(crate) fn keep_rights(file: &File, old: &Metadata) -> io::Result<()> {
    let _ = fchown(file, None, Some(old.gid()));
    let _ = fchown(file, Some(old.uid()), None);
    let new = file.metadata()?;
    let mode = kept_mode(old.mode(), new.uid() == old.uid(), new.gid() == old.gid());
    file.set_permissions(Permissions::from_mode(mode))
}

// The mode of the old list. If the new file has another owner or group, the set-user-ID or
// set-group-ID bit is cleared. With another group, the members of the old one are among all others,
// and those of the new one may be in the old one too. So the group and all others get only the
// rights that both had.
fn kept_mode(mode: u32, has_owner: bool, has_group: bool) -> u32
    ensures { result ≡ kept_mode mode has_owner has_group }
{
    let by_owner = if has_owner { PERMISSIONS } else { 0o3777 };
    let by_group = if has_group {
        PERMISSIONS
    } else {
        0o5700 + 9 * shared_rights(mode)
    };
    mode & by_owner & by_group
}

// The rights that both the group and all others have, as a digit of a mode.
fn shared_rights(mode: u32) -> u32
    ensures value { result ≡ shared_rights mode }
    ensures digit { result ≤ 7 }
{
    mode / 8 & mode & 0o007
}

// Gives the file of a lock to those who may write the list: its owner, and its group or all others,
// if they may write it. If that fails, they cannot take over the lock of an update that was killed.
pub(crate) fn share_lock(file: &File, list: &Metadata) {
    let Ok(new) = file.metadata() else {
        return;
    };
    let mut mode = lock_mode(list.mode());
    if mode != CLOSED && new.gid() != list.gid() && fchown(file, None, Some(list.gid())).is_err() {
        mode = lock_mode(kept_mode(list.mode(), true, false));
    }
    if new.uid() != list.uid() {
        let _ = fchown(file, Some(list.uid()), None);
    }
    if mode != CLOSED {
        let _ = file.set_permissions(Permissions::from_mode(mode));
    }
}

// The mode of a lock beside a list with this mode: everyone who may write the list may open the
// lock.
fn lock_mode(mode: u32) -> u32
    ensures { result ≡ lock_mode mode }
{
    CLOSED + 3 * (mode & 0o022)
}

// Whether the file of a lock was created by someone who may write the list: the user, root, the
// owner of the list, or a member of its group or anyone, if these may write it. Another user, in a
// folder where many can create files, could remove it while it is locked.
pub(crate) fn is_of_writer(lock: &Metadata, list: Option<&Metadata>, user: u32) -> bool {
    if lock.uid() == user || lock.uid() == 0 {
        return true;
    }
    match list {
        Some(list) => {
            let is_owner = list.uid() == lock.uid();
            is_writer(list.mode(), is_owner, list.gid() == lock.gid())
        }
        None => false,
    }
}

// Whether the owner of a list with this mode, or someone else who may be in its group, may write it
// or become its owner.
fn is_writer(mode: u32, is_owner: bool, is_member: bool) -> bool
    ensures { result ≡ is_writer mode is_owner is_member }
{
    is_owner || is_member && mode & 0o020 != 0 || mode & 0o002 != 0
}
