//! The names of the list's file and of the files beside it.

ghost use Rattle.std.specs.Prelude.{◌≤◌, length};

use std::alloc::Global;
use std::fs;
use std::io::{self, ErrorKind};
use std::random::RandomSource;

// How many links are followed to a file, as on Linux.
const LINKS: usize = 40;
// How many bytes of the list's name are in the names of the files beside it. These are then short
// enough for file systems that allow only 143 bytes.
const FRONT: usize = 100;
// The length of the number in the name of a new file, with the dot before it.
const DIGITS: usize = 17;

// The path of the file to which the name leads, with links followed. The file need not exist.
pub(crate) fn followed(rt: &HostRuntime, name: &str) -> io::Result<String> {
    let mut path = String::from_str(rt.alloc(), name)?;
    // The last iteration looks at the file after the last link.
    for _ in 0..=LINKS {
        let link = match fs::read_link(rt, path.as_str()) {
            Ok(link) => link,
            Err(error) if matches!(error.kind(), ErrorKind::InvalidInput | ErrorKind::NotFound) => {
                return Ok(path);
            }
            Err(error) => return Err(error),
        };
        path = beside(rt.alloc(), path.as_str(), link.as_str())?;
    }
    Err(io::Error::from(ErrorKind::FilesystemLoop))
}

// The path of a name, relative to the folder of another path.
pub(crate) fn beside(alloc: Global, path: &str, name: &str) -> io::Result<String> {
    match path.rsplit_once('/') {
        Some((folder, _)) if !name.starts_with('/') => Ok(format!(in alloc; "{folder}/{name}")?),
        _ => Ok(String::from_str(alloc, name)?),
    }
}

// The path of the lock beside a list.
pub(crate) fn lock_name(alloc: Global, path: &str) -> io::Result<String> {
    let front = front_of(path);
    let name = format!(in alloc; ".{front}.lock")?;
    beside(alloc, path, name.as_str())
}

// A path in the same folder, of a file that most likely does not exist.
pub(crate) fn new_name(rt: &HostRuntime, path: &str) -> io::Result<String> {
    let front = front_of(path);
    let mut bytes = [0u8; 8];
    rt.fill_bytes(&mut bytes)?;
    let number = u64::from_ne_bytes(bytes);
    let name = format!(in rt.alloc(); ".{front}.{number:016x}.new")?;
    beside(rt.alloc(), path, name.as_str())
}

// Whether `new_name` makes such a name of a list whose name has this front.
pub(crate) fn is_new_name(front: &[u8], name: &[u8]) -> bool {
    let Some(rest) = name.strip_prefix(b".") else {
        return false;
    };
    let Some(rest) = rest.strip_prefix(front) else {
        return false;
    };
    match rest.split_first_chunk::<DIGITS>() {
        Some((number, end)) => is_number(number) && end == b".new".as_slice(),
        None => false,
    }
}

// Whether these are a dot and the digits of a number.
fn is_number(bytes: &[u8; DIGITS]) -> bool {
    bytes[0] == b'.'
        && bytes[1..]
            .iter()
            .all(|byte| matches!(byte, b'0'..=b'9' | b'a'..=b'f'))
}

// The front of the last component of a path.
pub(crate) fn front_of(path: &str) -> &str
    ensures { length result.now ≤ 100 }
{
    let last = match path.rsplit_once('/') {
        Some((_, last)) => last,
        None => path,
    };
    &last[..last.floor_char_boundary(FRONT)]
}
