//! The name of a list in the file system, as a target for lists.

ghost use Rattle.std.specs.Prelude.{◌≡◌, ℕ, IfOk, None, Ok, Some, false, true};
ghost use Rattle.std.specs.Option.{ForSome};
ghost use Rattle.list_file.specs.declared.locked_list.Locked.{Locked as LockedOf};

use crate::locked_list::{FileTarget, Locked, MadeOf, lock_target, release, unopened};
use crate::replacing::{Written, write_list};
use crate::waiting::Waiting;
use byte_streams::{Failed, FromBuffer, Source};
use list_making::{Put, Target, buffered};
use run_faults::{Cause, FileFault};
use std::fs::{self, File};

// How often the name is looked at again because it now belongs to another file, or its file was
// changed meanwhile.
const TRIES: u32 = 10_000;

/// A reader of a list that a new one follows.
#[derive(Drop)]
pub struct OldReader {
    reader: FromBuffer<File>,
}

impl Source for OldReader {
    ghost left = { λ list. ⟦<FromBuffer<File> as Source>⟧.left list.reader };

    ghost has_failed = { λ list. ⟦<FromBuffer<File> as Source>⟧.has_failed list.reader };

    ghost buffered = { λ list. ⟦<FromBuffer<File> as Source>⟧.buffered list.reader };

    #[inline(always)]
    fn read(&mut self, into: &mut [u8]) -> Result<usize, Failed> {
        self.reader.read(into)
    }

    fn failed(&self) -> bool {
        self.reader.failed()
    }

    #[inline(always)]
    fn buffer(&self) -> &[u8] {
        self.reader.buffer()
    }

    #[inline(always)]
    fn consume(&mut self, count: usize) {
        self.reader.consume(count)
    }
}

/// The name of a list. Nothing is claimed about what is under it.
#[derive(Drop)]
pub struct ListTarget<'a> {
    rt: &'a HostRuntime,
    name: &'a str,
    waiting: Waiting<'a>,
    tries: u32,
    // The pipe or the device that is the old list, until it is read.
    stream: Option<File>,
    // Whether the old list is a pipe or a device, and the new one is put into such a one only.
    is_streamed: bool,
    // The file under the name, while it is held.
    locked: Option<Locked>,
}

impl<'a> ListTarget<'a> {
    /// The name of a list, for a program that is named where it waits for others.
    pub fn new(rt: &'a HostRuntime, program: &'static str, name: &'a str) -> ListTarget<'a>
        ensures { result.locked ≡ None }
    {
        ListTarget {
            rt,
            name,
            waiting: Waiting::new(program, name),
            tries: 0,
            stream: None,
            is_streamed: false,
            locked: None,
        }
    }

    /// Opens the old list, so that one which cannot be opened is reported before any other file is
    /// read. From then on a pipe or a device counts as the old list too.
    pub fn open_old(&mut self) -> Result<(), Cause> {
        let Ok(file) = fs::open(self.rt, self.name) else {
            return Err(Cause::File(FileFault::Open));
        };
        match file.metadata() {
            Ok(found) if found.is_file() => Ok(()),
            Ok(_) => {
                self.stream = Some(file);
                self.is_streamed = true;
                Ok(())
            }
            Err(_) => Err(Cause::File(FileFault::Open)),
        }
    }

    /// Lets other updates continue.
    pub fn release(&mut self)
        ensures { self.new.locked ≡ None }
    {
        if let Some(locked) = self.locked.take() {
            release(self.rt, locked);
        }
    }

    // Holds the file under the name, unless it is held already. Returns whether it is held, and is
    // open for reading if it is read.
    fn lock(&mut self, is_read: bool) -> Result<bool, Cause>
        ensures held { (locked : LockedOf) → self.old.locked ≡ Some locked → result ≡ Ok true }
        ensures stays { (locked : LockedOf) → self.old.locked ≡ Some locked
            → self.new.locked ≡ Some locked }
    {
        if self.locked.is_some() {
            return Ok(true);
        }
        let made_of = match fs::metadata(self.rt, self.name) {
            Ok(found) if is_read && found.is_file() => MadeOf::List,
            _ => MadeOf::Lines,
        };
        self.locked = lock_target(self.rt, self.name, made_of, &mut self.waiting)?;
        match &self.locked {
            Some(locked) if is_read && made_of == MadeOf::Lines => Ok(!locked.target.is_list()),
            Some(_) => Ok(true),
            None => Ok(false),
        }
    }

    // A reader of the regular file that is held, if there is one.
    fn reader(&self) -> Result<Option<OldReader>, Cause>
        ensures { IfOk result (λ list.
            ForSome list (λ it. ⟦<OldReader as Source>⟧.has_failed it ≡ false)) }
    {
        match &self.locked {
            Some(locked) => match &locked.target {
                FileTarget::List(old) => match old.file.try_clone() {
                    Ok(file) => Ok(Some(reader_of(self.rt, file)?)),
                    Err(error) => Err(unopened(&error)),
                },
                FileTarget::Free(_) | FileTarget::Stream(_) => Ok(None),
            },
            None => Ok(None),
        }
    }

    // Begins to read what is held again, if a list of this run replaced it.
    fn follow(&mut self) -> bool {
        match &mut self.locked {
            Some(locked) => match &mut locked.target {
                FileTarget::List(old) => old.follow(self.rt, None).unwrap_or(false),
                FileTarget::Free(_) | FileTarget::Stream(_) => false,
            },
            None => false,
        }
    }

    // The next step after a list was written. The file under the name stays held if a list of this
    // run replaced one that it does not follow, so that the next list follows that one.
    fn after(&mut self, written: Written) -> Put
        ensures all { (count : ℕ) → result ≡ Put.Whole count → written ≡ Written.Whole count }
        ensures stays { written ≡ Written.Changed → self.new.locked ≡ self.old.locked }
    {
        match written {
            Written::Whole(count) => Put::Whole(count),
            Written::Changed => Put::Again,
            Written::Elsewhere => {
                self.release();
                Put::Again
            }
        }
    }
}

impl<'a> Target for ListTarget<'a> {
    type List = OldReader;

    ghost holds = { λ _ _. Unit {0} };

    ghost base = { λ _ _. Unit {0} };

    ghost replaced = { λ _ _. Unit {0} };

    ghost overtaken = { λ _. Unit {0} };

    fn hold(&mut self, is_read: bool) -> Result<Option<OldReader>, Cause> {
        if let Some(stream) = self.stream.take() {
            return Ok(Some(reader_of(self.rt, stream)?));
        }
        for tries in self.tries..TRIES {
            self.tries = tries + 1;
            if self.lock(is_read)? {
                return if is_read { self.reader() } else { Ok(None) };
            }
            self.release();
        }
        Err(Cause::Output { count: 0 })
    }

    // A list that was changed is read again after a turn of waiting, as long as one is left.
    fn is_changed(&mut self) -> bool {
        let is_stale = match &self.locked {
            Some(locked) => locked.target.is_stale() && self.waiting.wait(self.rt).is_ok(),
            None => false,
        };
        if is_stale && !self.follow() {
            self.release();
        }
        is_stale
    }

    // A pipe or a device is opened to be written only once it was read, since it has no end before
    // all that write it have closed it.
    fn put(&mut self, bytes: &[u8]) -> Result<Put, Cause> {
        if self.is_streamed && self.locked.is_none() {
            self.locked = lock_target(self.rt, self.name, MadeOf::Stream, &mut self.waiting)?;
        }
        let Some(locked) = &mut self.locked else {
            return Ok(Put::Again);
        };
        match write_list(self.rt, self.name, locked, bytes) {
            Ok(written) => Ok(self.after(written)),
            Err(cause) => Err(cause),
        }
    }
}

// A reader of a file, with a buffer.
fn reader_of(rt: &HostRuntime, file: File) -> Result<OldReader, Cause>
    ensures { IfOk result (λ it. ⟦<OldReader as Source>⟧.has_failed it ≡ false) }
{
    let reader = FromBuffer::new(buffered(rt.alloc(), file)?);
    Ok(OldReader { reader })
}
