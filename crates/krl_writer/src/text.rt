//! The text of the stored revocations, and writing it.

ghost use Rattle.std.specs.Prelude.{◌≡◌, ◌*◌, ◌<◌, ◌≤◌, [], IsTrue, false, length};
ghost use Rattle.krl_format.specs.Front.{limit};
ghost use Rattle.krl_entries.specs.Revocations.{held};
ghost use Rattle.krl_writer.specs.KrlText.{header_text, texts_text};
ghost use Rattle.krl_writer.specs.InLimit.{AddsAtMost, IsWritten, Writes, write_fault_number};

use crate::authorities::add_authorities;
use crate::strings::{add_listed, add_string};
use crate::text_fault::TextFault;
use byte_streams::{Sink, send};
use krl_entries::Revocations;
use krl_format::{Header, KEYS, LIMIT, MAGIC_NUMBER, SHA1S, SHA256S};
use serial_set::Spans;
use ssh_wire::{put_string, put_u32, put_u64};
use std::alloc::Global;

/// The text of a revocation list (PROTOCOL.krl): its header, then the stored revocations, all
/// certificate authorities first, in the order of their bytes, then keys and hashes. Each
/// authority's serials take the fewest bytes of all plans that `krl_plan` has for them. Sections
/// that would be empty are omitted.
///
/// Returns `TooLong` if the text would be longer than 67,108,864 bytes, the limit of `read_krl`,
/// and `NoMemory` if an allocation fails.
pub fn krl_text<S: Spans>(
    alloc: Global,
    header: &Header,
    revocations: &Revocations<S>,
) -> Result<Vec<u8>, TextFault>
    ensures { IsWritten (λ made. made.items) result header.now revocations.now }
{
    if is_surely_too_long(revocations.in_order()) {
        return Err(TextFault::TooLong);
    }
    let mut out = Vec::new(alloc);
    add_header(&mut out, header)?;
    add_authorities(alloc, &mut out, revocations.iter_authorities())?;
    add_texts(&mut out, revocations)?;
    Ok(out)
}

// Whether the serials alone take more bytes than the limit, whatever their plan: 64 intervals take
// at least 17, as in a bitmap of every other serial. Finding the plan first would take long.
fn is_surely_too_long<S: Spans>(revocations: &Revocations<S>) -> bool
    ensures { IsTrue result → 64 * limit < 17 * held revocations.now }
{
    revocations.held() / 64 * 17 > u128::from(LIMIT)
}

// Appends the header of a list. Its flags are 0 and its reserved string is empty.
#[tactic(auto, using(crate::proofs::Limits::put_more))]
fn add_header(out: &mut Vec<u8>, header: &Header) -> Result<(), TextFault>
    ensures { AddsAtMost result out.old.items out.new.items (header_text header.now) }
{
    put_u64(out, MAGIC_NUMBER)?;
    put_u32(out, 1)?;
    put_u64(out, header.version)?;
    put_u64(out, header.date)?;
    put_u64(out, 0)?;
    put_string(out, b"")?;
    add_string(out, header.comment.as_slice())?;
    Ok(())
}

// Appends the sections of keys and hashes.
fn add_texts<S: Spans>(out: &mut Vec<u8>, revocations: &Revocations<S>) -> Result<(), TextFault>
    requires { length out.old.items ≤ limit }
    ensures { AddsAtMost result out.old.items out.new.items (texts_text revocations.now) }
{
    add_listed(out, KEYS, revocations.iter_keys())?;
    add_listed(out, SHA1S, revocations.iter_sha1s())?;
    add_listed(out, SHA256S, revocations.iter_sha256s())?;
    Ok(())
}

/// Why a list was not written.
#[derive(Clone, Copy, Debug, PartialEq, Eq)]
pub enum WriteFault {
    /// The writer failed after this many bytes.
    Write { count: usize },
    /// An allocation failed. Nothing was written.
    NoMemory,
    /// The text is longer than 67,108,864 bytes, so it could not be read. Nothing was written.
    TooLong,
}

impl WriteFault {
    /// The fault's number, 1 to 3 in the order of the variants.
    pub fn number(self) -> u8
        ensures { result ≡ write_fault_number self }
    {
        match self {
            WriteFault::Write { count: _ } => 1,
            WriteFault::NoMemory => 2,
            WriteFault::TooLong => 3,
        }
    }
}

/// Writes the text of `krl_text` to a writer that has not failed before. The whole text is in
/// memory before the first byte is written: after `NoMemory` and `TooLong` none was written, and
/// after `Write` the first `count` bytes and no others.
pub fn write_krl<S: Spans, W: Sink>(
    alloc: Global,
    header: &Header,
    revocations: &Revocations<S>,
    writer: &mut W,
) -> Result<(), WriteFault>
    requires { W.has_failed writer.old ≡ false }
    ensures { Writes result header.now revocations.now
        (W.taken writer.old) (W.taken writer.new) (W.has_failed writer.new) }
{
    let text = match krl_text(alloc, header, revocations) {
        Ok(text) => text,
        Err(TextFault::NoMemory) => return Err(WriteFault::NoMemory),
        Err(TextFault::TooLong) => return Err(WriteFault::TooLong),
    };
    match send(writer, &text) {
        Ok(_) => Ok(()),
        Err(sent) => Err(WriteFault::Write { count: sent.count }),
    }
}
