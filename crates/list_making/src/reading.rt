//! Files that are read a field at a time, or whole.

ghost use Rattle.std.specs.Prelude.{◌≡◌, [], IfOk, IfSome, false};
ghost use Rattle.std.specs.Io.Buffered.{reader_buffer, reader_inner};

use byte_streams::{Pull, Source};
use krl_types::KrlFault;
use run_faults::{Cause, cause_of};
use ssh_wire::Bytes;
use std::alloc::Global;
use std::io::{BufReader, Read};

// How many bytes of a list are read ahead.
const BUFFER: usize = 65_536;

/// A list with a buffer, for reading it a field at a time. Nothing is read yet.
pub fn buffered<R: Read + Drop>(alloc: Global, list: R) -> Result<BufReader<R>, Cause>
    ensures { IfOk result (λ made. (reader_inner made ≡ list) × (reader_buffer made ≡ [])) }
{
    match BufReader::with_capacity(alloc, BUFFER, list) {
        Ok(made) => Ok(made),
        Err(_) => Err(Cause::NoMemory),
    }
}

/// All bytes of a reader, unless they are more than this many.
pub fn read_rest<R: Source + Drop>(alloc: Global, reader: R, most: u64) -> Result<Bytes, Cause>
    requires { R.has_failed reader ≡ false }
    ensures { IfOk result (λ bytes. IfSome (R.left reader) (λ left. bytes ≡ left)) }
{
    match Pull::new(reader, most).rest(alloc) {
        Ok(bytes) => Ok(bytes),
        Err(fault) => Err(cause_of(KrlFault::from(fault))),
    }
}
