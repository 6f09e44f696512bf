//! The descriptors of standard streams that are closed.

use std::fs::{self, File};
use std::io;
use std::os::fd::AsFd;

/// The file that takes the descriptor of a closed standard stream. It can neither be read nor
/// written, like a closed stream.
pub const NOTHING: &str = "/";
// The number of the error EBADF on Linux: a descriptor is not open.
const NOT_OPEN: i32 = 9;

/// The files that take the descriptors of closed streams while this is held.
#[derive(Drop)]
pub struct Placeholders {
    input: Option<File>,
    output: Option<File>,
    error: Option<File>,
}

/// Takes the descriptors of those standard streams that are closed. Otherwise the next file that is
/// opened would get one of them, and be read or written as the stream. The lowest free number is
/// taken first, so each opening takes the descriptor of the stream that was found closed.
pub fn open_placeholders(rt: &HostRuntime) -> io::Result<Placeholders> {
    let input = open_placeholder(rt, &rt.stdin())?;
    let output = open_placeholder(rt, &rt.stdout())?;
    let error = open_placeholder(rt, &rt.stderr())?;
    Ok(Placeholders {
        input,
        output,
        error,
    })
}

// The file that takes the stream's descriptor, if the stream is closed.
fn open_placeholder<S: AsFd>(rt: &HostRuntime, stream: &S) -> io::Result<Option<File>> {
    match stream.as_fd().try_clone_to_owned() {
        Err(error) if error.raw_os_error() == Some(NOT_OPEN) => Ok(Some(fs::open(rt, NOTHING)?)),
        _ => Ok(None),
    }
}
