//! Names that lead to a file that was audited before.

ghost use Rattle.std.specs.Prelude.{◌≡◌, OnOk};
ghost use Rattle.json_lines.specs.Field.{json_line};
ghost use Rattle.audit_text.specs.Place.{place_of};
ghost use Rattle.audit_text.specs.Same.{same_line, same_object, same_said};

use crate::format::Format;
use crate::place::Location;
use json_lines::object;
use line_pieces::put;
use std::alloc::AllocError;

/// Makes the line of a name that leads to a file that was audited before.
pub fn write_same(
    form: Format,
    location: Location<'_, '_>,
    line: &mut Vec<u8>,
) -> Result<(), AllocError>
    ensures { OnOk result (line.new.items ≡ same_said form (place_of location.entry)) }
{
    match form {
        Format::Text | Format::Colour => write_same_line(location, line),
        Format::Json => write_same_object(location, line),
    }
}

// Makes the line in words.
fn write_same_line(location: Location<'_, '_>, line: &mut Vec<u8>) -> Result<(), AllocError>
    ensures { OnOk result (line.new.items ≡ same_line (place_of location.entry)) }
{
    line.clear();
    put!(line; location, b": same: it was audited before\n")
}

// Makes the object.
fn write_same_object(location: Location<'_, '_>, line: &mut Vec<u8>) -> Result<(), AllocError>
    ensures { OnOk result (line.new.items ≡ json_line (same_object (place_of location.entry))) }
{
    object!(line; location, "status": "same")
}
