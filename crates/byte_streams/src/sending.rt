//! Writing all of some bytes, in whatever parts a writer takes them.

ghost use Rattle.std.specs.Prelude.{◌≡◌, ◌<◌, false, length, take, IfErr, IfOk, OnOk, is_err};
ghost use Rattle.std.specs.Io.KnownBytes.{Appends};

use crate::device::Sink;

/// A writer failed after this many bytes.
#[derive(Clone, Copy, PartialEq, Eq)]
pub struct Sent {
    /// How many bytes were written, from the first byte on.
    pub count: usize,
}

/// Writes all the bytes, in whatever parts the writer takes them, and returns how many it took. If
/// the writer fails, the first `count` bytes were written and no others. The writer must not have
/// failed before.
pub fn send<W: Sink>(writer: &mut W, bytes: &[u8]) -> Result<usize, Sent>
    requires { W.has_failed writer.old ≡ false }
    ensures ok { OnOk result (Appends (W.taken writer.old) (W.taken writer.new) bytes.now) }
    ensures all { IfOk result (λ count. count ≡ length bytes.now) }
    ensures err { IfErr result (λ sent.
        Appends (W.taken writer.old) (W.taken writer.new) (take sent.count bytes.now)) }
    ensures short { IfErr result (λ sent. sent.count < length bytes.now) }
    ensures failed { W.has_failed writer.new ≡ is_err result }
{
    let mut count = 0;
    while count < bytes.len() {
        match writer.write(&bytes[count..]) {
            Ok(taken) => count += taken,
            Err(_) => return Err(Sent { count }),
        }
    }
    Ok(count)
}
