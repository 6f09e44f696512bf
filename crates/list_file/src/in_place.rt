//! Writing a list in place, if its folder takes no new file.

ghost use Rattle.std.specs.Prelude.{◌≡◌, ◌<◌, ◌≤◌, IfErr, IfOk, length};

use byte_streams::{ToWrite, send};
use std::fs::File;
use std::io::{Seek, SeekFrom};

// The offset of the format version, after the magic of a list, and the offset of its end.
const VERSION: usize = 8;

const FRONT: usize = 12;
// Each byte of a format version that no reader of lists accepts.
const NO_VERSION: u8 = 0xff;

// Writes a list over another file. Until all of it is written and synced, its format version is one
// that every reader rejects. So no reader takes a part of the list for the whole, or finds it
// empty, even if writing fails or the machine stops. Returns the number of bytes written; so does
// the error.
pub(crate) fn write_in_place(file: &File, text: &[u8]) -> Result<u64, u64>
    ensures all { IfOk result (λ count. count ≡ length text.now) }
    ensures bound { IfErr result (λ count. count ≤ length text.now) }
{
    let Some((front, rest)) = text.split_first_chunk::<FRONT>() else {
        return Err(0);
    };
    begin(file, front)?;
    let count = match send_all(file, rest) {
        Ok(count) => FRONT as u64 + count,
        Err(count) => return Err(FRONT as u64 + count),
    };
    if end(file, &front[VERSION..], count) {
        Ok(count)
    } else {
        Err(count)
    }
}

// Writes the front of the list, with a version that no reader accepts. It is synced before anything
// else changes.
fn begin(file: &File, front: &[u8; FRONT]) -> Result<(), u64>
    ensures bound { IfErr result (λ count. count ≤ 12) }
{
    let mut refused = [NO_VERSION; FRONT];
    refused[..VERSION].copy_from_slice(&front[..VERSION]);
    send_at(file, 0, &refused)?;
    match file.sync_all() {
        Ok(()) => Ok(()),
        Err(_) => Err(FRONT as u64),
    }
}

// Truncates the file to the length of the list, and writes the true version once the rest is
// synced. Returns whether that succeeded.
fn end(file: &File, version: &[u8], length: u64) -> bool {
    file.set_len(length).is_ok()
        && file.sync_all().is_ok()
        && send_at(file, VERSION as u64, version).is_ok()
        && file.sync_all().is_ok()
}

// Writes the bytes at this offset. Returns how many bytes were written; so does the error.
fn send_at(file: &File, at: u64, text: &[u8]) -> Result<u64, u64>
    ensures all { IfOk result (λ count. count ≡ length text.now) }
    ensures short { IfErr result (λ count. count ≤ length text.now) }
{
    let mut from = file;
    if from.seek(SeekFrom::Start(at)).is_err() {
        return Err(0);
    }
    send_all(file, text)
}

// Writes the bytes. Returns how many bytes were written; so does the error.
pub(crate) fn send_all(file: &File, text: &[u8]) -> Result<u64, u64>
    ensures all { IfOk result (λ count. count ≡ length text.now) }
    ensures short { IfErr result (λ count. count < length text.now) }
{
    match send(&mut ToWrite::new(file), text) {
        Ok(count) => Ok(count as u64),
        Err(part) => Err(part.count as u64),
    }
}
