//! Names that a reader gives, each of which a zero byte ends.

ghost use Rattle.std.specs.Prelude.{◌≡◌, ◌+◌, ◌∷◌, ◌++◌, [], ℕ, List, IfErr, IfOk, OnOk, take};
ghost use Rattle.audit_run.specs.Reading.{SomeFailed};
ghost use Rattle.audit_run.specs.ZeroEnded.{Comes, HasEnded, IsNext, unread};

use crate::reading::Came;
use byte_streams::Source;
use std::alloc::AllocError;
use std::marker::Model;

// How many bytes are read at a time.
const BUFFER: usize = 8_192;

/// A reader of names, each of which a zero byte ends.
#[derive(Drop)]
pub(crate) struct ZeroEnded<N: Source + Drop> {
    reader: N,
    batch: [u8; BUFFER],
    // How many bytes of the batch were read, and how many of these were taken.
    count: usize,
    at: usize,
    // How many more bytes may be taken. No reader has so many, and so reading ends whatever it
    // gives.
    room: u64,
}

impl<N: Source + Drop> Model for ZeroEnded<N> {
    ghost use Rattle.std.specs.Prelude.{◌≤◌, drop, length, take};
    ghost use Rattle.std.specs.Io.KnownBytes.{prepend_known};
    ghost use Rattle.audit_run.specs.ZeroEnded.{Unread};

    ghost Value = { Unread };

    ghost view = { λ names. record {
      left = prepend_known (drop names.at (take names.count names.batch)) (N.left names.reader);
      failed = N.has_failed names.reader;
      room = names.room;
    } };

    ghost invariant = { λ names. (names.at ≤ names.count)
        × (names.count ≤ length names.batch) };
}

impl<N: Source + Drop> ZeroEnded<N> {
    /// The names of a reader, none of which was read.
    pub(crate) fn new(reader: N) -> Self
        ensures { result ≡ unread (N.left reader) (N.has_failed reader) }
    {
        ZeroEnded {
            reader,
            batch: [0; BUFFER],
            count: 0,
            at: 0,
            room: u64::MAX,
        }
    }

    /// The reader.
    pub(crate) fn source(&self) -> &N
        ensures { N.has_failed result.now ≡ self.now.failed }
    {
        &self.reader
    }

    /// Replaces the content of a buffer by the next name. If the name has more than `most` bytes,
    /// only the first `most + 1` are kept. Returns why there is no next name, and then the buffer
    /// has the bytes that no zero byte ends.
    pub(crate) fn next(
        &mut self,
        most: usize,
        name: &mut Vec<u8>,
    ) -> Result<Result<(), Came>, AllocError>
        ensures { IfOk result (λ next. IsNext (SomeFailed N.has_failed) most self.old self.new
            name.new.items next) }
    {
        name.clear();
        'bytes: loop {
            let byte = match self.byte() {
                Ok(byte) => byte,
                Err(why) => return Ok(Err(why)),
            };
            if byte == 0 {
                return Ok(Ok(()));
            }
            keep_byte(name, most, byte)?;
        }
    }

    // The next byte, or why there is none.
    fn byte(&mut self) -> Result<u8, Came>
        ensures byte { IfOk result (λ byte. Comes self.old self.new (byte ∷ [])) }
        ensures ended { IfErr result (λ why. Comes self.old self.new []
            × HasEnded (SomeFailed N.has_failed) self.new why) }
    {
        if self.room == 0 {
            return Err(Came::More);
        }
        if self.at == self.count {
            let Ok(count) = self.reader.read(&mut self.batch) else {
                return Err(Came::Failed);
            };
            self.at = 0;
            self.count = count;
            if count == 0 {
                return Err(Came::All);
            }
        }
        let byte = self.batch[self.at];
        self.at += 1;
        self.room -= 1;
        Ok(byte)
    }
}

// Keeps a byte of a name, if the name has at most this many.
fn keep_byte(name: &mut Vec<u8>, most: usize, byte: u8) -> Result<(), AllocError>
    ensures { (front : List ℕ) → name.old.items ≡ take (most + 1) front
        → OnOk result (name.new.items ≡ take (most + 1) (front ++ byte ∷ [])) }
{
    if name.len() <= most {
        name.push(byte)?;
    }
    Ok(())
}
