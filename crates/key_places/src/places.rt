//! The places of a line, one after another.

ghost use Rattle.std.specs.Prelude.{◌≡◌, ◌≤◌, [], ◌∷◌, length, IfNone, IfOk, IfSome, OnErr};
ghost use Rattle.std.specs.Prelude.{option_map};
ghost use Rattle.key_places.specs.Reading.{IsFirstPlace, content_of, places_of};

use crate::place::{Place, place_at};
use crate::search::next_name;
use std::alloc::{AllocError, Global};
use std::marker::Model;

/// The places of a line that are left, in the order of their columns.
#[derive(Drop)]
pub struct Places<'l> {
    line: &'l [u8],
    at: usize,
}

impl<'l> Model for Places<'l> {
    ghost use Rattle.std.specs.Prelude.{◌≤◌, List, length};
    ghost use Rattle.key_places.specs.Place.{KeyPlace};
    ghost use Rattle.key_places.specs.Reading.{places_from};

    ghost Value = { List KeyPlace };

    ghost view = { λ places. places_from places.line.now places.at };

    ghost invariant = { λ places. places.at ≤ length places.line.now };
}

impl<'l> Places<'l> {
    /// Starts at the first byte of a line. Does not allocate.
    pub fn new(line: &'l [u8]) -> Self
        ensures { result ≡ places_of line.entry.now }
    {
        Places { line, at: 0 }
    }

    /// The next place, or none if no place is left. Memory is allocated for the blob, for its
    /// start, which is tested first, and for a copy of its base64 if that has an escape. If an
    /// allocation fails, the same place is still the next one.
    pub fn next(&mut self, alloc: Global) -> Result<Option<Place<'l>>, AllocError>
        ensures some { IfOk result (λ read. IfSome read (λ place.
            self.old ≡ content_of place ∷ self.new)) }
        ensures none { IfOk result (λ read. IfNone read ((self.old ≡ []) × (self.new ≡ []))) }
        ensures err { OnErr result (self.new ≡ self.old) }
    {
        let place = first_place(alloc, self.line, self.at)?;
        self.at = match &place {
            Some(first) => first.column as usize,
            None => self.line.len(),
        };
        Ok(place)
    }
}

// The first place that begins at a position or after it.
fn first_place<'l>(
    alloc: Global,
    line: &'l [u8],
    from: usize,
) -> Result<Option<Place<'l>>, AllocError>
    requires { from ≤ length line.now }
    ensures { IfOk result (λ read. IsFirstPlace line.now from (option_map content_of read)) }
{
    let mut at = from;
    'names: while let Some(start) = next_name(line, at) {
        let place = place_at(alloc, line, start)?;
        if place.is_some() {
            return Ok(place);
        }
        at = start + 1;
    }
    Ok(None)
}
