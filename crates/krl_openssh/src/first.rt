//! The first difference among the fields of a list.

ghost use Rattle.std.specs.Prelude.{◌↔◌, IsTrue, None};
ghost use Rattle.krl_format.specs.Front.{IsEnd, IsFirstKrlFault};
ghost use Rattle.krl_openssh.specs.Fields.{IsFirstDifference};

use crate::difference::{Difference, difference_at};
use krl_format::Place;

/// Returns the first field for which OpenSSH refuses a list or reads other names from it, and why.
/// Returns none if no field differs in one of the ways of `Difference`. Does not allocate.
pub fn first_difference(list: &[u8]) -> Option<Difference>
    requires { IsFirstKrlFault list.now None }
    ensures { IsFirstDifference list.now result }
{
    let mut place = Place::start();
    let mut rest = list;
    'fields: while !is_end(place, rest) {
        let Some((size, next)) = place.passes(rest) else {
            return None;
        };
        if let Some(difference) = difference_at(place, &rest[..size]) {
            return Some(difference);
        }
        place = next;
        rest = &rest[size..];
    }
    None
}

// Returns true if a list may end at this place, and no byte is left.
fn is_end(place: Place, rest: &[u8]) -> bool
    ensures { IsTrue result ↔ IsEnd place rest.now }
{
    place.may_end() && rest.is_empty()
}
