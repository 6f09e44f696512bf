//! The line of a terminal that says how far an audit is. It has no escape sequence: a carriage
//! return leads back to its start, and blanks wipe it on a terminal that is as wide as the line.

ghost use Rattle.std.specs.Prelude.{◌≡◌, ◌++◌, OnOk, replicate};
ghost use Rattle.audit_run.specs.Progress.{progress_text, wipe_text};

use crate::summary::{Summary, push_inputs};
use line_pieces::put;
use std::alloc::AllocError;

/// Appends what shows how far an audit is, from the start of the line.
pub fn push_progress(summary: &Summary, text: &mut Vec<u8>) -> Result<(), AllocError>
    ensures { OnOk result (text.new.items ≡ text.old.items ++ progress_text summary.now) }
{
    put!(text; b"\r")?;
    push_inputs(summary, text)?;
    put!(text; summary.counts.revoked, b" revoked, ", summary.counts.unread, b" unread")
}

/// Appends what wipes a line of this many characters.
pub fn push_wipe(length: usize, text: &mut Vec<u8>) -> Result<(), AllocError>
    ensures { OnOk result (text.new.items ≡ text.old.items ++ wipe_text length) }
{
    text.push(b'\r')?;
    push_blanks(length, text)?;
    text.push(b'\r')?;
    Ok(())
}

// Appends this many blanks.
fn push_blanks(count: usize, text: &mut Vec<u8>) -> Result<(), AllocError>
    ensures { OnOk result (text.new.items ≡ text.old.items ++ replicate count 32) }
{
    let mut pushed = 0;
    'blanks: while pushed < count {
        text.push(b' ')?;
        pushed += 1;
    }
    Ok(())
}
