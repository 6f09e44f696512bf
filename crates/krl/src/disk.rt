//! The file system, as an audit sees it: one place that looks at a name, and one that opens a file.

ghost use Rattle.std.specs.Prelude.{◌≡◌, ◌↔◌, Bool, false, IfOk, IsErr, IsOkAnd, IsTrue};
ghost use Rattle.std.specs.Fs.{IsFile, file_type};
ghost use Rattle.krl.specs.Disk.{kind_of};

use crate::loading::{open, refusal_of};
use audit_lines::Refusal;
use audit_run::{FileKind, Found, Identity, Opened, Tree, is_sought, path_in};
use byte_streams::{Failed, FromRead, Source};
use std::alloc::AllocError;
use std::cell::Cell;
use std::fs::{self, File, Files, Metadata};
use std::io::{self, Read};
use std::os::unix::fs::{FileTypeExt, MetadataExt};
use std::str;
use std::time::{Duration, Instant};

// How many seconds an opening may take before no other file of the same owner is opened.
const PATIENCE: u64 = 5;
// How many openings may take so long before only files of root are opened.
const MOST_SLOW: usize = 3;
// The number of the null device (Linux, admin-guide/devices.rst: 1 is its major number, and 3 its
// minor one).
const NULL: u64 = 0x103;

/// A reader of the names of a directory.
#[derive(Drop)]
pub struct Names {
    reader: FromRead<<HostRuntime as Files>::Dir>,
}

impl Source for Names {
    ghost left = { λ names.
        ⟦<FromRead<<HostRuntime as Files>::Dir> as Source>⟧.left names.reader };

    ghost has_failed = { λ names.
        ⟦<FromRead<<HostRuntime as Files>::Dir> as Source>⟧.has_failed names.reader };

    ghost buffered = { λ names.
        ⟦<FromRead<<HostRuntime as Files>::Dir> as Source>⟧.buffered names.reader };

    fn read(&mut self, into: &mut [u8]) -> Result<usize, Failed> {
        self.reader.read(into)
    }

    fn failed(&self) -> bool {
        self.reader.failed()
    }

    fn buffer(&self) -> &[u8] {
        self.reader.buffer()
    }

    fn consume(&mut self, count: usize) {
        self.reader.consume(count)
    }
}

/// A reader of an open file.
#[derive(Drop)]
pub struct OpenFile {
    reader: FromRead<File>,
}

impl Source for OpenFile {
    ghost left = { λ file. ⟦<FromRead<File> as Source>⟧.left file.reader };

    ghost has_failed = { λ file. ⟦<FromRead<File> as Source>⟧.has_failed file.reader };

    ghost buffered = { λ file. ⟦<FromRead<File> as Source>⟧.buffered file.reader };

    fn read(&mut self, into: &mut [u8]) -> Result<usize, Failed> {
        self.reader.read(into)
    }

    fn failed(&self) -> bool {
        self.reader.failed()
    }

    fn buffer(&self) -> &[u8] {
        self.reader.buffer()
    }

    fn consume(&mut self, count: usize) {
        self.reader.consume(count)
    }
}

/// The file system, of which nothing is claimed.
#[derive(Drop)]
pub struct Disk<'a> {
    rt: &'a HostRuntime,
    // The names of directories that are skipped.
    exclude: &'a [&'a str],
    // Whether the audit stays on the file system of each directory that is named.
    is_bound: bool,
    // The devices of the file systems of the kernel.
    kernel: [Option<u64>; 4],
    // The device of the directory that was named last.
    device: Cell<Option<u64>>,
    // The owners of files whose opening took long.
    slow: Cell<Vec<u32>>,
}

impl<'a> Disk<'a> {
    /// The file system, in which no opening lasted yet. Names of directories are skipped if they are
    /// among these, and other file systems if `is_bound` is true.
    pub fn new(rt: &'a HostRuntime, exclude: &'a [&'a str], is_bound: bool) -> Self {
        let root = device_of(rt, "/");
        Disk {
            rt,
            exclude,
            is_bound,
            kernel: [
                mounted_at(rt, "/proc", root),
                mounted_at(rt, "/sys", root),
                mounted_at(rt, "/sys/kernel/tracing", root),
                mounted_at(rt, "/sys/kernel/debug", root),
            ],
            device: Cell::new(None),
            slow: Cell::new(Vec::new(rt.alloc())),
        }
    }

    // Whether a device is that of a file system of the kernel.
    fn is_kernel(&self, device: u64) -> bool {
        self.kernel.contains(&Some(device))
    }

    // Whether opening a file of this owner may last: an opening of another one did, or so many
    // openings that other users may do the same. Root has no need to make one last.
    fn is_slow(&self, owner: u32) -> bool {
        let slow = self.slow.replace(Vec::new(self.rt.alloc()));
        let is_slow = owner != 0 && (slow.len() >= MOST_SLOW || slow.contains(&owner));
        self.slow.set(slow);
        is_slow
    }

    // Keeps the owner of a file whose opening lasted, unless that is root.
    fn keep_slow(&self, owner: u32, began: io::Result<Instant>) -> Result<(), AllocError> {
        if owner == 0 || !self.lasted(began) {
            return Ok(());
        }
        let mut slow = self.slow.replace(Vec::new(self.rt.alloc()));
        slow.push(owner)?;
        self.slow.set(slow);
        Ok(())
    }

    // Whether this began too long ago. Without a clock nothing did.
    fn lasted(&self, began: io::Result<Instant>) -> bool {
        match (began, Instant::now(self.rt)) {
            (Ok(began), Ok(now)) => {
                now.saturating_duration_since(began) >= Duration::from_secs(PATIENCE)
            }
            _ => false,
        }
    }

    // Opens what is at a path, and looks at exactly this file.
    fn open_at(&self, path: &str) -> Result<(File, Metadata), Refusal> {
        let file = open(self.rt, path)?;
        match file.metadata() {
            Ok(found) => Ok((file, found)),
            Err(error) => Err(refusal_of(&error)),
        }
    }

    // Why a directory that was found cannot be entered: for a link, what it leads to.
    fn why_closed(&self, path: &str, refusal: Refusal) -> Refusal {
        match self.look(path, false) {
            Ok(found) if found.kind == FileKind::Link => {}
            _ => return refusal,
        }
        match self.look(path, true) {
            Ok(found) if found.kind == FileKind::Directory => Refusal::DirectoryLink,
            Ok(_) => refusal,
            Err(other) => other,
        }
    }
}

impl<'a> Tree for Disk<'a> {
    ghost use Rattle.audit_run.specs.Fact.{Fact};

    type Names = Names;

    type File = OpenFile;

    ghost states = { λ _ _. Unit {0} };

    fn look(&self, path: &str, followed: bool) -> Result<Found, Refusal> {
        if followed {
            found_by(fs::metadata(self.rt, path))
        } else {
            found_by(fs::symlink_metadata(self.rt, path))
        }
    }

    fn is_excluded(&self, name: &[u8]) -> bool {
        match str::from_utf8(name) {
            Ok(name) => self.exclude.contains(&name),
            Err(_) => false,
        }
    }

    // A directory whose name cannot be had may be one that is looked for.
    fn leads_to_sought(&self, path: &str) -> bool {
        match fs::canonicalize(self.rt, path) {
            Ok(directory) => match directory.file_name() {
                Some(name) => is_sought(name.as_bytes()),
                None => false,
            },
            Err(_) => true,
        }
    }

    fn is_elsewhere(&self, path: &str) -> bool {
        if !self.is_bound {
            return false;
        }
        match (self.device.get(), fs::symlink_metadata(self.rt, path)) {
            (Some(device), Ok(found)) => found.dev() != device,
            _ => false,
        }
    }

    // Reading a file of the kernel may wait or change something, so only the user who names one has
    // it read. The owner of a file can make its opening last (fcntl(2), F_SETLEASE), so one that
    // lasted is the last one of its owner's files that is found, unless that is root.
    fn open(
        &self,
        path: &str,
        looked: Option<Found>,
    ) -> Result<Result<Opened<OpenFile>, Refusal>, AllocError> {
        if let Some(found) = looked {
            if self.is_kernel(found.device) {
                return Ok(Err(Refusal::Kernel));
            }
            if self.is_slow(found.owner) {
                return Ok(Err(Refusal::Slow));
            }
        }
        let began = Instant::now(self.rt);
        let (file, found) = match self.open_at(path) {
            Ok(opened) => opened,
            Err(refusal) => return Ok(Err(refusal)),
        };
        if looked.is_some() && self.is_kernel(found.dev()) {
            return Ok(Err(Refusal::Kernel));
        }
        if looked.is_some() || found.is_file() {
            self.keep_slow(found.uid(), began)?;
        }
        Ok(Ok(opened_by(file, &found)))
    }

    fn why_unread(&self, _path: &str, _file: &OpenFile) -> Refusal {
        Refusal::Read
    }

    // A link to a directory is followed where it has a slash at its end, which one gets that is
    // named.
    fn enter(&self, path: &str, named: bool) -> Result<Result<Self::Names, Refusal>, AllocError> {
        let with_slash = path_in(self.rt.alloc(), path, "")?;
        let opened = if named { with_slash.as_str() } else { path };
        if named {
            self.device.set(device_of(self.rt, opened));
        }
        match self.rt.open_dir(opened) {
            Ok(directory) => Ok(Ok(Names {
                reader: FromRead::new(directory),
            })),
            Err(error) if named => Ok(Err(refusal_of(&error))),
            Err(error) => Ok(Err(self.why_closed(path, refusal_of(&error)))),
        }
    }

    fn why_broken(&self, path: &str, named: bool, _names: &Self::Names) -> Refusal {
        if named {
            Refusal::Read
        } else {
            self.why_closed(path, Refusal::Read)
        }
    }
}

// The device of what is at a path.
fn device_of(rt: &HostRuntime, path: &str) -> Option<u64> {
    match fs::metadata(rt, path) {
        Ok(found) => Some(found.dev()),
        Err(_) => None,
    }
}

// The device of the file system that is mounted at a path. Where none is mounted, the path is on
// that of the root.
fn mounted_at(rt: &HostRuntime, path: &str, root: Option<u64>) -> Option<u64> {
    let device = device_of(rt, path);
    if device == root { None } else { device }
}

// The kind of what a look has found, or why it cannot be looked at.
fn found_by(found: io::Result<Metadata>) -> Result<Found, Refusal>
    ensures found { IfOk found (λ found. IsOkAnd result (λ it. (null : Bool)
        × (it.kind ≡ kind_of null found))) }
    ensures refused { IsErr found → IsErr result }
{
    match found {
        Ok(found) => Ok(Found {
            kind: kind_of(&found, is_null(&found)),
            owner: found.uid(),
            device: found.dev(),
        }),
        Err(error) => Err(refusal_of(&error)),
    }
}

// An open file, of which exactly the bytes are read that it gives.
fn opened_by(file: File, found: &Metadata) -> Opened<OpenFile>
    ensures kind { IsTrue result.is_file ↔ IsFile (file_type found.now) }
    ensures bytes { ⟦<OpenFile as Source>⟧.left result.file ≡ ⟦<File as Read>⟧.remaining file }
    ensures working { ⟦<OpenFile as Source>⟧.has_failed result.file ≡ false }
{
    Opened {
        is_file: found.is_file(),
        identity: Identity {
            device: found.dev(),
            number: found.ino(),
            size: found.len(),
            changed: found.ctime().cast_unsigned(),
            nanoseconds: found.ctime_nsec().cast_unsigned(),
        },
        file: OpenFile {
            reader: FromRead::new(file),
        },
    }
}

// Whether it is the null device.
fn is_null(found: &Metadata) -> bool {
    found.file_type().is_char_device() && found.rdev() == NULL
}

// The file that was found at a path, which may be the null device.
fn kind_of(found: &Metadata, is_null: bool) -> FileKind
    ensures { result ≡ kind_of is_null found.now }
{
    if found.is_dir() {
        FileKind::Directory
    } else if found.is_file() {
        FileKind::File
    } else if found.is_symlink() {
        FileKind::Link
    } else if is_null {
        FileKind::Null
    } else {
        FileKind::Other
    }
}
