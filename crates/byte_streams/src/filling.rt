//! Reading until a slice or a vector is full.

ghost use Rattle.std.specs.Prelude.{◌≡◌, ◌≢◌, ◌<◌, ◌≤◌, ◌+◌, ℕ, [], None, Err, OnOk, OnErr, IfErr};
ghost use Rattle.std.specs.Prelude.{false, vec_len, vec_capacity};
ghost use Rattle.std.specs.Io.KnownBytes.{Consumes, Keeps};
ghost use Rattle.byte_streams.specs.Filling.{Fills, FindsAhead, pull_of};
ghost use Rattle.byte_streams.specs.Pull.{Misses, after_ahead};
ghost use Rattle.ssh_wire.specs.declared.pull_fault.PullFault.TheVariants.{NoMemory};

use crate::device::Source;
use ssh_wire::PullFault;

// How many bytes are read at a time, so that a false length takes no memory.
const BATCH: usize = 256;

// Fills a slice with the byte that was looked at and with what the reader gives. Returns
// `EndsEarly` if the reader ends first, and `Read` if it fails.
#[inline(always)]
pub(crate) fn fill<R: Source>(
    reader: &mut R,
    ahead: &mut Option<u8>,
    into: &mut [u8],
) -> Result<(), PullFault>
    requires { R.has_failed reader.old ≡ false }
    ensures fills { Fills result (after_ahead ahead.old (R.left reader.old))
        (after_ahead ahead.new (R.left reader.new)) (R.has_failed reader.new) into.new }
    ensures none_ahead { OnErr result (ahead.new ≡ None) }
{
    if let Some(byte) = *ahead
        && !into.is_empty()
    {
        *ahead = None;
        into[0] = byte;
        fill_from(reader, &mut into[1..])
    } else {
        fill_from(reader, into)
    }
}

// Fills a slice with what the reader gives. One read is usually enough.
#[inline(always)]
fn fill_from<R: Source>(reader: &mut R, into: &mut [u8]) -> Result<(), PullFault>
    requires { R.has_failed reader.old ≡ false }
    ensures { Fills result (R.left reader.old) (R.left reader.new) (R.has_failed reader.new)
        into.new }
{
    if into.is_empty() {
        return Ok(());
    }
    match reader.read(into) {
        Ok(count) if count == into.len() => Ok(()),
        Ok(0) => Err(PullFault::EndsEarly),
        Ok(count) => fill_parts(reader, &mut into[count..]),
        Err(_) => Err(PullFault::Read),
    }
}

// Fills a slice in as many reads as it takes.
#[inline(never)]
fn fill_parts<R: Source>(reader: &mut R, into: &mut [u8]) -> Result<(), PullFault>
    requires { R.has_failed reader.old ≡ false }
    ensures { Fills result (R.left reader.old) (R.left reader.new) (R.has_failed reader.new)
        into.new }
{
    let mut count = 0;
    while count < into.len() {
        match reader.read(&mut into[count..]) {
            Ok(0) => return Err(PullFault::EndsEarly),
            Ok(more) => count += more,
            Err(_) => return Err(PullFault::Read),
        }
    }
    Ok(())
}

// Whether a byte is left, which is then ahead. Returns `Read` if the reader fails.
pub(crate) fn look<R: Source>(reader: &mut R, ahead: &mut Option<u8>) -> Result<bool, PullFault>
    requires { R.has_failed reader.old ≡ false }
    ensures bytes { Keeps (after_ahead ahead.old (R.left reader.old))
        (after_ahead ahead.new (R.left reader.new)) }
    ensures finds { FindsAhead result (after_ahead ahead.new (R.left reader.new))
        (R.has_failed reader.new) ahead.new }
{
    if ahead.is_some() {
        return Ok(true);
    }
    let mut next = [0];
    match fill_from(reader, &mut next) {
        Ok(()) => {
            *ahead = Some(next[0]);
            Ok(true)
        }
        Err(PullFault::EndsEarly) => Ok(false),
        Err(fault) => Err(fault),
    }
}

// Why no more bytes than the limit leaves can be taken: the reader has bytes past the limit, or it
// ends or fails first.
#[inline(never)]
pub(crate) fn refusal<R: Source>(
    reader: &mut R,
    ahead: &mut Option<u8>,
    taken: u64,
    limit: u64,
) -> PullFault
    requires working { R.has_failed reader.old ≡ false }
    requires within { taken ≤ limit }
    ensures misses { (size : ℕ) → limit < taken + size → Misses
        (pull_of (R.left reader.old) false ahead.old taken limit) size result
        (pull_of (R.left reader.new) (R.has_failed reader.new) ahead.new taken limit) }
    ensures memory { result ≢ NoMemory }
{
    let mut batch = [0; BATCH];
    let mut at = taken;
    while at < limit {
        let part = (limit - at).min(BATCH as u64) as usize;
        match fill(reader, ahead, &mut batch[..part]) {
            Ok(()) => at += part as u64,
            Err(fault) => return fault,
        }
    }
    match look(reader, ahead) {
        Ok(true) => PullFault::TooLong,
        Ok(false) => PullFault::EndsEarly,
        Err(fault) => fault,
    }
}

// Fills an empty vector with this many bytes. It grows only as they come.
#[inline(never)]
pub(crate) fn fill_vec<R: Source>(
    reader: &mut R,
    ahead: &mut Option<u8>,
    out: &mut Vec<u8>,
    size: usize,
) -> Result<(), PullFault>
    requires working { R.has_failed reader.old ≡ false }
    requires empty { out.old.items ≡ [] }
    ensures ok { OnOk result (Consumes (after_ahead ahead.old (R.left reader.old))
        (after_ahead ahead.new (R.left reader.new)) out.new.items) }
    ensures size { OnOk result (vec_len out.new ≡ size) }
    ensures works { OnOk result (R.has_failed reader.new ≡ false) }
    ensures misses { IfErr result (λ fault. (taken limit : ℕ) → taken + size ≤ limit → Misses
        (pull_of (R.left reader.old) false ahead.old taken limit) size fault
        (pull_of (R.left reader.new) (R.has_failed reader.new) ahead.new taken limit)) }
    ensures full { result ≡ Err NoMemory → vec_capacity out.old < size }
{
    let mut batch = [0; BATCH];
    while out.len() < size {
        let part = (size - out.len()).min(BATCH);
        if out.reserve(part).is_err() {
            return Err(PullFault::NoMemory);
        }
        fill(reader, ahead, &mut batch[..part])?;
        if out.extend_from_slice(&batch[..part]).is_err() {
            return Err(PullFault::NoMemory);
        }
    }
    Ok(())
}
