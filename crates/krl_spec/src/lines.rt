//! Reading specification files (ssh-keygen(1), KEY REVOCATION LISTS).

ghost use Rattle.std.specs.Prelude.{◌+◌, ◌≤◌, length};
ghost use Rattle.krl_entries.specs.Revocations.{held, stored};
ghost use Rattle.krl_spec.specs.Under.{authority_under, bytes_under};
ghost use Rattle.krl_spec.specs.Lines.{ReadsSpec, lines_of};

use crate::adding::add_line;
use crate::spec_fault::SpecFault;
use crate::under::Under;
use key_text::split_line;
use krl_entries::Revocations;
use serial_set::Spans;
use std::alloc::Global;

/// Adds the entries of the lines of a specification file, up to the first line that has a fault or
/// at which an allocation fails. The entries of the lines before it stay added.
///
/// A line names at most one entry. A `#` and what follows it are ignored, and so are blanks and
/// carriage returns at both ends.
pub fn read_spec<S: Spans>(
    alloc: Global,
    revocations: &mut Revocations<S>,
    under: Under,
    text: &[u8],
) -> Result<(), SpecFault>
    ensures reads { ReadsSpec (authority_under under.entry) text.now result
        revocations.old revocations.new }
    ensures held { held revocations.new
        ≤ held revocations.old
        + length (lines_of (authority_under under.entry) text.now).entries }
    ensures stored { stored revocations.new
        ≤ stored revocations.old + length text.now
        + length (bytes_under (authority_under under.entry)) }
{
    let mut rest = text;
    let mut passed = 0;
    'lines: loop {
        let (line, after) = split_line(rest);
        if let Err(cause) = add_line(alloc, revocations, under, line) {
            return Err(SpecFault {
                line: passed + 1,
                cause,
            });
        }
        let Some(after) = after else {
            return Ok(());
        };
        rest = after;
        passed += 1;
    }
}
