//! The lines of findings, for people or as JSON objects.

ghost use Rattle.std.specs.Prelude.{◌≡◌, OnOk};
ghost use Rattle.audit_text.specs.Place.{place_of};
ghost use Rattle.audit_text.specs.Said.{key_said, unread_said};
ghost use Rattle.audit_text.specs.Verdict.{answer_of};
ghost use Rattle.audit_lines.specs.Outcome.{found_as};

use crate::format::Format;
use crate::objects::{write_key_object, write_unread_object};
use crate::place::Location;
use crate::text::{Verdict, write_key, write_unread};
use audit_lines::Why;
use std::alloc::{AllocError, Global};

/// Makes the line of a key, and those that explain it.
pub fn say_key(
    alloc: Global,
    form: Format,
    location: Location<'_, '_>,
    verdict: &Verdict<'_>,
    line: &mut Vec<u8>,
) -> Result<(), AllocError>
    ensures { OnOk result (line.new.items
        ≡ key_said form (place_of location.entry)
        (found_as verdict.now.found.now verdict.now.subject.now) (answer_of verdict.now)) }
{
    match form {
        Format::Text => write_key(alloc, false, location, verdict, line),
        Format::Colour => write_key(alloc, true, location, verdict, line),
        Format::Json => write_key_object(location, verdict, line),
    }
}

/// Makes the line for a line or file that is not read.
pub fn say_unread(
    alloc: Global,
    form: Format,
    location: Location<'_, '_>,
    why: Why,
    line: &mut Vec<u8>,
) -> Result<(), AllocError>
    ensures { OnOk result (line.new.items
        ≡ unread_said form (place_of location.entry) why) }
{
    match form {
        Format::Text => write_unread(alloc, false, location, why, line),
        Format::Colour => write_unread(alloc, true, location, why, line),
        Format::Json => write_unread_object(location, why, line),
    }
}
