//! Reading a plain list.

ghost use Rattle.std.specs.Prelude.{◌≡◌, ◌≤◌, IfErr, IfOk, OnOk, length};
ghost use Rattle.std.specs.Result.{IsOk};
ghost use Rattle.krl_entries.specs.Changes.{MeansMore};
ghost use Rattle.krl_entries.specs.Revocations.{Means};
ghost use Rattle.plain_list.specs.Key.{Reports, line_key};
ghost use Rattle.krl_format.specs.Front.{limit};
ghost use Rattle.plain_list.specs.List.{AreRead, HasFault, entries_of, line_entries, lines_of};

use crate::fault::PlainFault;
use crate::key::key_of_line;
use key_text::split_line;
use krl_entries::Revocations;
use serial_set::Spans;
use std::alloc::Global;

// The most bytes of a plain list, as many as a key revocation list may have.
const LIMIT: usize = krl_format::LIMIT as usize;

/// Reads a plain list: what its lines revoke. The list is refused for its first line that is
/// neither empty nor a comment nor a key, as sshd then refuses every key. `NoMemory` is returned
/// only if an allocation fails.
pub fn read_plain<S: Spans>(alloc: Global, text: &[u8]) -> Result<Revocations<S>, PlainFault>
    ensures found { IfOk result (λ revoked. Means revoked (entries_of (lines_of text.now))) }
    ensures only { IfOk result (λ revoked. AreRead (lines_of text.now)) }
    ensures within { IfOk result (λ revoked. length text.now ≤ limit) }
    ensures fault { IfErr result (λ fault. HasFault text.now fault) }
{
    if text.len() > LIMIT {
        return Err(PlainFault::TooLong);
    }
    let mut revoked = Revocations::new(alloc);
    let mut rest = text;
    let mut passed: u64 = 0;
    'lines: loop {
        let (line, after) = split_line(rest);
        passed += 1;
        add_line(alloc, &mut revoked, passed, line)?;
        let Some(after) = after else {
            return Ok(revoked);
        };
        rest = after;
    }
}

// Adds the key that a line with this number revokes, if it revokes one.
fn add_line<S: Spans>(
    alloc: Global,
    revoked: &mut Revocations<S>,
    number: u64,
    line: &[u8],
) -> Result<(), PlainFault>
    ensures read { OnOk result (IsOk (line_key line.now)) }
    ensures adds { OnOk result (MeansMore revoked.old revoked.new (line_entries line.now)) }
    ensures fault { IfErr result (λ fault. Reports number fault (line_key line.now)) }
{
    match key_of_line(alloc, number, line)? {
        Some(key) => Ok(revoked.add_key(key.as_slice())?),
        None => Ok(()),
    }
}
