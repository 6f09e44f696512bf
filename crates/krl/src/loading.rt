//! Files that are opened and read.

ghost use Rattle.std.specs.Prelude.{◌≡◌, ◌<◌, IfOk, IfSome, OnErr, OnOk, false, length};
ghost use Rattle.std.specs.Prelude.{vec_capacity, vec_len};
ghost use Rattle.std.specs.Io.KnownBytes.{Consumes};
ghost use Rattle.std.specs.IoError.{error_kind};
ghost use Rattle.std.specs.Prelude.{map};
ghost use Rattle.krl.specs.Loading.{IsRead};
ghost use Rattle.krl.specs.Names.{name_of, now_of};

use any_list::Lists;
use audit_lines::Refusal;
use byte_streams::{FromRead, Source};
use krl_core::LIMIT as LIST_LIMIT;
use krl_system::read_list;
use list_making::read_rest;
use run_faults::{Cause, FileFault, LIMIT};
use ssh_wire::Bytes;
use std::alloc::{AllocError, Global};
use std::fs::{self, File};
use std::io::{self, ErrorKind};
use text_run::{MakeCause, MakeFault, Text};

/// The name of standard input.
pub const INPUT: &str = "-";

// How many bytes of a file are read at a time.
const BATCH: usize = 8_192;

/// Why a file cannot be opened.
pub fn refusal_of(error: &io::Error) -> Refusal
    ensures missing { error_kind error.now ≡ ErrorKind.NotFound → result ≡ Refusal.Missing }
    ensures no_directory { error_kind error.now ≡ ErrorKind.NotADirectory
        → result ≡ Refusal.Missing }
    ensures denied { error_kind error.now ≡ ErrorKind.PermissionDenied → result ≡ Refusal.Denied }
    ensures loops { error_kind error.now ≡ ErrorKind.FilesystemLoop → result ≡ Refusal.Loop }
{
    match error.kind() {
        ErrorKind::NotFound | ErrorKind::NotADirectory => Refusal::Missing,
        ErrorKind::PermissionDenied => Refusal::Denied,
        ErrorKind::FilesystemLoop => Refusal::Loop,
        _ => Refusal::Open,
    }
}

/// Why a file could not be opened, which is asked once more where it is a regular file by now.
pub fn why_unopened(rt: &HostRuntime, path: &str) -> Refusal {
    match fs::metadata(rt, path) {
        Ok(found) if found.is_file() => open(rt, path).err().unwrap_or(Refusal::Open),
        Ok(_) => Refusal::Open,
        Err(error) => refusal_of(&error),
    }
}

/// Opens a file.
pub fn open(rt: &HostRuntime, path: &str) -> Result<File, Refusal> {
    match fs::open(rt, path) {
        Ok(file) => Ok(file),
        Err(error) => Err(refusal_of(&error)),
    }
}

/// Replaces the content of a buffer by the bytes of a reader, or says why they are not all read: it
/// failed, or it has too many. Fails only if an allocation for more bytes than the buffer has room
/// for fails.
pub fn read<R: Source>(
    reader: &mut R,
    text: &mut Vec<u8>,
) -> Result<Result<(), Refusal>, AllocError>
    requires { R.has_failed reader.old ≡ false }
    ensures bytes { OnOk result
        (Consumes (R.left reader.old) (R.left reader.new) text.new.items) }
    ensures read { IfOk result
        (IsRead (R.left reader.new) (R.has_failed reader.new) (vec_len text.new)) }
    ensures full { OnErr result (IfSome (R.left reader.old) (λ bytes.
        vec_capacity text.old < length bytes)) }
{
    text.clear();
    let mut batch = [0; BATCH];
    while text.len() as u64 <= LIMIT {
        let Ok(count) = reader.read(&mut batch) else {
            return Ok(Err(Refusal::Read));
        };
        if count == 0 {
            return Ok(Ok(()));
        }
        text.extend_from_slice(&batch[..count])?;
    }
    Ok(Err(Refusal::TooLong))
}

/// A text, or standard input if its name is `-`, which counts as no regular file.
pub fn text_of<'a>(rt: &HostRuntime, name: &'a str) -> Text<'a>
    ensures { result.name ≡ name.now }
{
    let (is_file, content) = if name == INPUT {
        let input = FromRead::new(rt.stdin());
        (false, read_rest(rt.alloc(), input, LIST_LIMIT))
    } else {
        match fs::open(rt, name) {
            Ok(file) => {
                let is_file = matches!(file.metadata(), Ok(found) if found.is_file());
                (
                    is_file,
                    read_rest(rt.alloc(), FromRead::new(file), LIST_LIMIT),
                )
            }
            Err(_) => (false, Err(Cause::File(FileFault::Open))),
        }
    };
    Text {
        name,
        is_file,
        content,
    }
}

/// The texts with these names.
pub fn texts_of<'a>(rt: &HostRuntime, names: &[&'a str]) -> Result<Vec<Text<'a>>, MakeFault<'a>>
    ensures { IfOk result (λ texts. map name_of texts.items ≡ map now_of names.now) }
{
    let mut texts = Vec::new(rt.alloc());
    for name in names {
        let name = *name;
        if texts.push(text_of(rt, name)).is_err() {
            return Err(MakeFault::whole(name, MakeCause::Run(Cause::NoMemory)));
        }
    }
    Ok(texts)
}

/// The bytes of a list's file, or of standard input if its name is `-`: of a longer one, one byte
/// more than a list may have, so that it has its first fault.
pub fn bytes_of(rt: &HostRuntime, name: &str) -> Result<Bytes, Cause> {
    if name == INPUT {
        return read_list(rt.alloc(), rt.stdin());
    }
    match fs::open(rt, name) {
        Ok(file) => read_list(rt.alloc(), file),
        Err(_) => Err(Cause::File(FileFault::Open)),
    }
}

/// The lists of the system. Nothing is claimed about their bytes.
#[derive(Drop)]
pub struct ListFiles<'a> {
    pub rt: &'a HostRuntime,
}

impl<'a> Lists for ListFiles<'a> {
    ghost use Rattle.std.specs.Prelude.{None};

    ghost told = { λ _. None };

    fn read(&mut self, _alloc: Global, name: &str) -> Result<Bytes, Cause> {
        bytes_of(self.rt, name)
    }
}
