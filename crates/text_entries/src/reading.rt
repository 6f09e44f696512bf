//! Reading the text of a list (krl(1), THE TEXT OF A LIST).

ghost use Rattle.std.specs.Prelude.{◌+◌, ◌≤◌, length};
ghost use Rattle.krl_entries.specs.Revocations.{held};
ghost use Rattle.text_entries.specs.Lines.{lines_with};
ghost use Rattle.text_entries.specs.Reading.{ReadsText};

use crate::line::take_line;
use crate::standing::Standing;
use crate::text_fault::TextFault;
use key_text::split_line;
use krl_entries::Revocations;
use serial_set::Spans;
use std::alloc::Global;

/// Adds the entries of the lines of a text, up to the first line that has a fault or at which an
/// allocation fails. The entries of the lines before it stay added.
///
/// A line gives the authority of the lines that follow, gives an authority a name, or names at most
/// one entry, which may have a last day. No authority is current before the first line that gives
/// one; what else stands after other texts counts on.
pub fn read_text<S: Spans>(
    alloc: Global,
    revocations: &mut Revocations<S>,
    standing: &mut Standing,
    text: &[u8],
) -> Result<(), TextFault>
    ensures reads { ReadsText text.now result standing.old standing.new
        revocations.old revocations.new }
    ensures held { held revocations.new
        ≤ held revocations.old + length (lines_with standing.old text.now).entries }
{
    standing.current = None;
    let mut rest = text;
    let mut passed = 0;
    'lines: loop {
        let (line, after) = split_line(rest);
        if let Err(cause) = take_line(alloc, revocations, standing, line) {
            return Err(TextFault {
                line: passed + 1,
                cause,
            });
        }
        let Some(after) = after else {
            return Ok(());
        };
        rest = after;
        passed += 1;
    }
}
