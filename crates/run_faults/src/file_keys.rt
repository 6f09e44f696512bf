//! The keys of a file, one after another.

ghost use Rattle.std.specs.Prelude.{◌≡◌, ◌<◌, ◌≤◌, ◌+◌, ◌*◌, ◌^◌, ℕ, Err, IfErr, IfOk, List};
ghost use Rattle.std.specs.Prelude.{length};
ghost use Rattle.ssh_cert.specs.AnyKey.{IsReadAs};
ghost use Rattle.ssh_cert.specs.SubjectReading.{subject_of};
ghost use Rattle.ssh_cert.specs.declared.subject_fault.SubjectFault.{SubjectFault as FaultOf};
ghost use Rattle.key_text.specs.ContainerReading.{private_at};
ghost use Rattle.key_text.specs.LineReading.{line_at};
ghost use Rattle.run_faults.specs.FileKeys.{HasRoom, IsNextLine, keys_left, line_room};
ghost use Rattle.run_faults.specs.Keys.{GivesKey, GivesNext, key_of_container, keys_of};
ghost use Rattle.run_faults.specs.Keys.{key_of_line, run_fault_in, text_keys};
ghost use Rattle.run_faults.specs.Sizes.{file_size, keys_room};

use crate::cause::Cause;
use crate::file_fault::FileFault;
use crate::named::Named;
use crate::run_fault::RunFault;
use key_text::{
    Line, LineFault, Private, PrivateFault, has_key, is_container, read_line, read_private,
    split_line,
};
use keyed_lines::KeyCause;
use ssh_cert::{AnyKey, read_any};
use std::alloc::Global;
use std::marker::Model;

/// Where a key is.
#[derive(Drop)]
pub enum KeyText<'a> {
    /// The key of a line.
    Line(Line<'a>),
    /// The key of a private key file.
    Container(Private),
}

/// A key of a file.
#[derive(Drop)]
pub struct FileKey<'a> {
    /// The name of the file.
    pub name: &'a str,
    /// The number of the line, counted from 1. A container has no lines.
    pub number: Option<u64>,
    text: KeyText<'a>,
}

impl<'a> Model for FileKey<'a> {
    ghost use Rattle.run_faults.specs.FileKeys.{content_in};
    ghost use Rattle.run_faults.specs.Keys.{FileKey};

    ghost Value = { FileKey };

    ghost view = { λ key. record {
      name = key.name.now;
      number = key.number;
      line = content_in key.text;
    } };
}

impl<'a> FileKey<'a> {
    /// The key's bytes.
    pub fn blob(&self) -> &[u8]
        ensures { result.now ≡ self.now.line.blob }
    {
        match &self.text {
            KeyText::Line(line) => line.blob.as_slice(),
            KeyText::Container(private) => private.blob.as_slice(),
        }
    }

    /// The comment after the key, or in its container. It may be empty.
    pub fn comment(&self) -> &[u8]
        ensures { result.now ≡ self.now.line.comment }
    {
        match &self.text {
            KeyText::Line(line) => line.comment,
            KeyText::Container(private) => private.comment.as_slice(),
        }
    }

    /// The plain key or the certificate of these bytes.
    pub fn read(&self) -> Result<AnyKey<'_>, RunFault<'a>>
        ensures found { IfOk result (λ any. IsReadAs self.now.line.blob any) }
        ensures fault { IfErr result (λ stop. (fault : FaultOf)
            × ((subject_of self.now.line.blob ≡ Err fault)
            × (stop ≡ run_fault_in self.now fault))) }
    {
        match read_any(self.blob()) {
            Ok(any) => Ok(any),
            Err(fault) => Err(RunFault {
                name: self.name,
                line: self.number,
                cause: Cause::Key(KeyCause::Subject(fault)),
            }),
        }
    }
}

/// The lines left of a text, and how many were read.
#[derive(Clone, Copy)]
pub struct Lines<'a> {
    passed: u64,
    rest: Option<&'a [u8]>,
}

impl<'a> Lines<'a> {
    // Skips the lines up to the next one that has a key.
    fn next_with_key(&mut self) -> Option<&'a [u8]>
        requires { self.old.passed + line_room self.old.rest < 2 ^ 64 }
        ensures next { IsNextLine self.old self.new result }
        ensures room { self.new.passed + line_room self.new.rest < 2 ^ 64 }
    {
        while let Some(text) = self.rest {
            let (line, rest) = split_line(text);
            self.rest = rest;
            self.passed += 1;
            if has_key(line) {
                return Some(line);
            }
        }
        None
    }
}

/// The part of a file that is left.
#[derive(Clone, Copy)]
pub enum Left<'a> {
    /// Why the file could not be used.
    Fault(FileFault),
    Container(&'a [u8]),
    Lines(Lines<'a>),
}

const NOTHING: Left = Left::Lines(Lines {
    passed: 0,
    rest: None,
});

/// The keys of a file in order: an iterator. A line that has a key but cannot be read gives a
/// fault. A file that is a container has one key. A file that could not be used gives a fault.
#[derive(Drop)]
pub struct FileKeys<'a> {
    alloc: Global,
    name: &'a str,
    left: Left<'a>,
}

impl<'a> Model for FileKeys<'a> {
    ghost use Rattle.std.specs.Prelude.{List, Result};
    ghost use Rattle.run_faults.specs.FileKeys.{HasRoom, keys_left};
    ghost use Rattle.run_faults.specs.Keys.{FileKey};
    ghost use Rattle.run_faults.specs.RunFault.{RunFault};

    ghost Value = { List (Result FileKey RunFault) };

    ghost view = { λ keys. keys_left keys.name.now keys.left };

    ghost invariant = { λ keys. HasRoom keys.left };
}

impl<'a> Iterator for FileKeys<'a> {
    ghost use Rattle.std.specs.Iterator.{item_count};

    type Item = Result<FileKey<'a>, RunFault<'a>>;

    ghost next_gives = { λ keys next later. GivesNext keys next later };

    ghost remaining = { item_count (λ keys. keys) };

    fn next(&mut self) -> Option<Result<FileKey<'a>, RunFault<'a>>> {
        match self.left {
            Left::Fault(fault) => {
                self.left = NOTHING;
                Some(Err(RunFault::whole(self.name, Cause::File(fault))))
            }
            Left::Container(text) => {
                self.left = NOTHING;
                Some(key_of_container(self.alloc, self.name, text))
            }
            Left::Lines(mut lines) => {
                let line = lines.next_with_key();
                self.left = Left::Lines(lines);
                Some(key_of_line(self.alloc, self.name, lines.passed, line?))
            }
        }
    }
}

/// The keys of a file.
#[tactic(auto, unfolding(crate::specs::Keys::keys_of))]
pub fn keys_of<'a>(alloc: Global, file: &'a Named<'a>) -> FileKeys<'a>
    ensures keys { result ≡ keys_of file.entry.now }
    ensures room { keys_room result ≤ 3 * file_size file.entry.now }
{
    let left = match &file.content {
        Ok(text) => text_left(text.as_slice()),
        Err(fault) => Left::Fault(*fault),
    };
    FileKeys {
        alloc,
        name: file.name,
        left,
    }
}

// The whole of a text is left.
fn text_left(text: &[u8]) -> Left<'_>
    ensures keys { (name : List ℕ) → keys_left name result ≡ text_keys name text.now }
    ensures size { (name : List ℕ) → keys_room (keys_left name result) ≤ 3 * length text.now }
    ensures room { HasRoom result }
{
    if is_container(text) {
        Left::Container(text)
    } else {
        Left::Lines(Lines {
            passed: 0,
            rest: Some(text),
        })
    }
}

// The key of a private key file.
fn key_of_container<'a>(
    alloc: Global,
    name: &'a str,
    text: &[u8],
) -> Result<FileKey<'a>, RunFault<'a>>
    ensures { GivesKey (key_of_container name.now (private_at text.now)) result }
{
    match read_private(alloc, text) {
        Ok(private) => Ok(FileKey {
            name,
            number: None,
            text: KeyText::Container(private),
        }),
        Err(PrivateFault::NoMemory) => Err(RunFault::whole(name, Cause::NoMemory)),
        Err(fault) => Err(RunFault::whole(name, Cause::Private(fault))),
    }
}

// The key of a line.
fn key_of_line<'a>(
    alloc: Global,
    name: &'a str,
    number: u64,
    text: &'a [u8],
) -> Result<FileKey<'a>, RunFault<'a>>
    ensures { GivesKey (key_of_line name.now number (line_at text.now)) result }
{
    match read_line(alloc, text) {
        Ok(line) => Ok(FileKey {
            name,
            number: Some(number),
            text: KeyText::Line(line),
        }),
        Err(LineFault::NoMemory) => Err(RunFault::whole(name, Cause::NoMemory)),
        Err(fault) => Err(RunFault::at_line(name, number, Cause::Key(KeyCause::Line(fault)))),
    }
}
