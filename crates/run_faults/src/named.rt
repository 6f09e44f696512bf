//! Files by name, with their content.

ghost use Rattle.std.specs.Prelude.{◌≡◌, false};
ghost use Rattle.run_faults.specs.Named.{IsLoaded, file_fault};

use crate::file_fault::FileFault;
use byte_streams::{Pull, Source};
use ssh_wire::{Bytes, PullFault};
use std::alloc::Global;
use std::marker::Model;

/// The maximum length of a file in bytes.
pub const LIMIT: u64 = 16_777_216;

/// A file's name, and its bytes or why there are none.
#[derive(Drop)]
pub struct Named<'a> {
    /// The name, as it is given on the command line.
    pub name: &'a str,
    /// The bytes of the whole file, or why there are none.
    pub content: Result<Bytes, FileFault>,
}

impl<'a> Model for Named<'a> {
    ghost use Rattle.run_faults.specs.Keys.{Named};

    ghost Value = { Named };

    ghost view = { λ file. record { name = file.name.now; content = file.content } };
}

/// Reads a file to its end, and returns the reader. The content is `TooLong` if the reader gives
/// more than 16,777,216 bytes, `Read` if it fails before that, and `NoMemory` if an allocation for
/// bytes that were read fails.
pub fn load<'a, R: Source + Drop>(alloc: Global, name: &'a str, reader: R) -> (Named<'a>, R)
    requires { R.has_failed reader ≡ false }
    ensures name { result.0.name ≡ name.now }
    ensures content { IsLoaded (R.left reader) (R.left result.1) (R.has_failed result.1)
        result.0.content }
{
    let mut pull = Pull::new(reader, LIMIT);
    let content = match pull.rest(alloc) {
        Ok(bytes) => Ok(bytes),
        Err(fault) => Err(file_fault(fault)),
    };
    (Named { name, content }, pull.into_inner())
}

// Why a file cannot be used, given why its bytes could not be read.
fn file_fault(fault: PullFault) -> FileFault
    ensures { result ≡ file_fault fault }
{
    match fault {
        PullFault::EndsEarly | PullFault::Read => FileFault::Read,
        PullFault::TooLong => FileFault::TooLong,
        PullFault::NoMemory => FileFault::NoMemory,
    }
}
