//! The search for the names of types in a line.

ghost use Rattle.std.specs.Prelude.{◌<◌, ◌≤◌, length, IfSome, MatchOption};
ghost use Rattle.key_places.specs.Reading.{NoneWithin};

use crate::name::{may_begin, split_name};
use memchr::memchr;

// The first hyphen of a name is at most this many bytes behind its start.
const REACH: usize = 5;

/// A position, from `from` on, at which the name of a type begins. No place begins before it. If
/// there is none, no place is left.
pub fn next_name(line: &[u8], from: usize) -> Option<usize>
    requires { from ≤ length line.now }
    ensures skipped { MatchOption result (NoneWithin line.now from (length line.now))
        (λ start. NoneWithin line.now from start) }
    ensures within { IfSome result (λ start. (from ≤ start) × (start < length line.now)) }
{
    // Each name has a hyphen, and a search finds the hyphens.
    let mut at = from;
    'hyphens: while let Some(gap) = memchr(b'-', &line[at..]) {
        let hyphen = at + gap;
        let first = at.max(hyphen.saturating_sub(REACH));
        if let Some(start) = name_before(line, first, hyphen) {
            return Some(start);
        }
        at = hyphen + 1;
    }
    None
}

// The first position from one up to another at which the name of a type begins.
fn name_before(line: &[u8], from: usize, to: usize) -> Option<usize>
    requires { to ≤ length line.now }
    ensures skipped { MatchOption result (NoneWithin line.now from to)
        (λ start. NoneWithin line.now from start) }
    ensures within { IfSome result (λ start. (from ≤ start) × (start < to)) }
{
    for start in from..to {
        if may_begin(line, start) && split_name(&line[start..]).is_some() {
            return Some(start);
        }
    }
    None
}
