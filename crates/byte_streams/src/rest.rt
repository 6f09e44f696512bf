//! Reading up to the reader's end.

ghost use Rattle.std.specs.Prelude.{◌≡◌, ◌<◌, ◌≤◌, ◌+◌, ℕ, [], None, OnOk, IfErr, false, is_err};
ghost use Rattle.std.specs.Prelude.{length, vec_len};
ghost use Rattle.std.specs.Io.KnownBytes.{Consumes, IsAtEnd, ReadConsumes};
ghost use Rattle.byte_streams.specs.Device.{IsPart};
ghost use Rattle.byte_streams.specs.Filling.{pull_of};
ghost use Rattle.byte_streams.specs.Pull.{MissesRest, after_ahead};

use crate::device::{Failed, Source};
use crate::filling::look;
use ssh_wire::PullFault;

// How many bytes are read at a time.
const BATCH: usize = 65_536;

// Reads into the front of a slice that has room: the byte that was looked at, or otherwise what one
// read gives.
fn read_on<R: Source>(
    reader: &mut R,
    ahead: &mut Option<u8>,
    into: &mut [u8],
) -> Result<usize, Failed>
    requires working { R.has_failed reader.old ≡ false }
    requires room { 0 < length into.old }
    ensures part { IsPart result into.new }
    ensures bytes { ReadConsumes (after_ahead ahead.old (R.left reader.old))
        (R.left reader.new) result into.new }
    ensures none_ahead { ahead.new ≡ None }
    ensures failed { R.has_failed reader.new ≡ is_err result }
{
    if let Some(byte) = *ahead {
        *ahead = None;
        into[0] = byte;
        return Ok(1);
    }
    reader.read(into)
}

// Fills an empty vector with the byte that was looked at and all that the reader gives, up to
// `room` bytes. The vector grows only as they come.
pub(crate) fn fill_rest<R: Source>(
    reader: &mut R,
    ahead: &mut Option<u8>,
    out: &mut Vec<u8>,
    room: u64,
) -> Result<(), PullFault>
    requires working { R.has_failed reader.old ≡ false }
    requires empty { out.old.items ≡ [] }
    ensures ok { OnOk result (Consumes (after_ahead ahead.old (R.left reader.old))
        (R.left reader.new) out.new.items) }
    ensures within { OnOk result (vec_len out.new ≤ room) }
    ensures none_ahead { OnOk result (ahead.new ≡ None) }
    ensures ends { OnOk result (IsAtEnd (R.left reader.new)) }
    ensures works { OnOk result (R.has_failed reader.new ≡ false) }
    ensures misses { IfErr result (λ fault. (taken limit : ℕ) → taken + room ≡ limit → MissesRest
        (pull_of (R.left reader.old) false ahead.old taken limit) fault
        (pull_of (R.left reader.new) (R.has_failed reader.new) ahead.new taken limit)) }
{
    let mut batch = [0; BATCH];
    while (out.len() as u64) < room {
        let part = (room - out.len() as u64).min(BATCH as u64) as usize;
        let Ok(count) = read_on(reader, ahead, &mut batch[..part]) else {
            return Err(PullFault::Read);
        };
        if count == 0 {
            return Ok(());
        }
        if out.extend_from_slice(&batch[..count]).is_err() {
            return Err(PullFault::NoMemory);
        }
    }
    match look(reader, ahead) {
        Ok(true) => Err(PullFault::TooLong),
        Ok(false) => Ok(()),
        Err(fault) => Err(fault),
    }
}
