//! Strings one after another, as long as the whole stays within the limit.

ghost use Rattle.std.specs.Prelude.{◌≤◌, length};
ghost use Rattle.ssh_wire.specs.Wire.{string, strings};
ghost use Rattle.krl_format.specs.Front.{limit};
ghost use Rattle.krl_writer.specs.KrlText.{listed_text};
ghost use Rattle.krl_writer.specs.InLimit.{AddsAtMost};

use crate::text_fault::TextFault;
use krl_entries::Texts;
use krl_plan::{begin_string, end_string};
use ssh_wire::put_string;

// The maximum length of a list in bytes.
pub(crate) const LIMIT: usize = krl_format::LIMIT as usize;

// Appends a string.
pub(crate) fn add_string(out: &mut Vec<u8>, text: &[u8]) -> Result<(), TextFault>
    ensures { AddsAtMost result out.old.items out.new.items (string text.now) }
{
    if text.len() > LIMIT {
        return Err(TextFault::TooLong);
    }
    put_string(out, text)?;
    if out.len() > LIMIT {
        return Err(TextFault::TooLong);
    }
    Ok(())
}

// Appends strings, one after another.
fn add_strings(out: &mut Vec<u8>, texts: Texts<'_>) -> Result<(), TextFault>
    requires { length out.old.items ≤ limit }
    ensures { AddsAtMost result out.old.items out.new.items (strings texts.entry) }
{
    for text in texts {
        add_string(out, text)?;
    }
    Ok(())
}

// Appends a type byte and a string of strings, if there are any.
pub(crate) fn add_listed(
    out: &mut Vec<u8>,
    type_byte: u8,
    mut texts: Texts<'_>,
) -> Result<(), TextFault>
    requires { length out.old.items ≤ limit }
    ensures { AddsAtMost result out.old.items out.new.items (listed_text type_byte texts.entry) }
{
    let Some(first) = texts.next() else {
        return Ok(());
    };
    let at = begin_string(out, type_byte)?;
    add_string(out, first)?;
    add_strings(out, texts)?;
    end_string(out, at);
    Ok(())
}
