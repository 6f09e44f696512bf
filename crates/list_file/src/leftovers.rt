//! New files that were left beside a list by updates that were killed.

use crate::names::{beside, front_of, is_new_name};
use std::fs::{self};

// Removes the new files that were left beside the list. The update has the lock of the list, so no
// other one is at work on such a file. A folder that cannot be read, and a file that cannot be
// removed, are no faults: what is left has no effect on the list.
pub(crate) fn remove_left(rt: &HostRuntime, path: &str) {
    let Ok(folder) = beside(rt.alloc(), path, ".") else {
        return;
    };
    let Ok(entries) = fs::read_dir(rt, folder.as_str()) else {
        return;
    };
    for entry in entries {
        if let Ok(entry) = entry
            && is_new_name(front_of(path).as_bytes(), entry.file_name().as_bytes())
        {
            remove_file(rt, path, entry.file_name());
        }
    }
}

// Removes the file with this name beside the list, unless it is a link or no regular file: no
// update leaves those.
fn remove_file(rt: &HostRuntime, path: &str, name: &str) {
    if let Ok(file) = beside(rt.alloc(), path, name)
        && let Ok(found) = fs::symlink_metadata(rt, file.as_str())
        && found.is_file()
    {
        let _ = fs::remove_file(rt, file.as_str());
    }
}
