//! The test whether a file has a key, and the files without a key that an audit reports as a whole.

ghost use Rattle.std.specs.Prelude.{◌≡◌, ◌∷◌, ◌+◌, ◌<◌, ◌≤◌, ◌^◌, IfOk, IfSome, List, Option};
ghost use Rattle.std.specs.Prelude.{ℕ};
ghost use Rattle.std.specs.List.{slice_split};
ghost use Rattle.key_text.specs.Lines.{is_newline};
ghost use Rattle.audit_lines.specs.Keyless.{keyless, keyless_lines, many, more_unread};
ghost use Rattle.audit_lines.specs.Keyless.{unread_alone, unread_with, with_first, with_second};
ghost use Rattle.audit_lines.specs.Outcome.{GivesOutcome, GivesOutcomes, GivesSecond};
ghost use Rattle.audit_lines.specs.Outcome.{Outcome as OutcomeOf, Outcomes as OutcomesOf};
ghost use Rattle.audit_lines.specs.Outcome.{outcomes_of, read_all};

use crate::front::Fronts;
use crate::outcome::{Outcome, Outcomes, read_outcomes};
use key_text::{is_container, split_line};
use std::alloc::{AllocError, Global};

/// The number of lines of a file that are not read, if an audit reports the file as a whole since
/// none of them has a key.
pub fn keyless_lines(alloc: Global, name: &str, text: &[u8]) -> Result<Option<u64>, AllocError>
    ensures { IfOk result (λ count. count ≡ keyless_lines name.now text.now) }
{
    if is_container(text) {
        return Ok(None);
    }
    let fronts = Fronts::of(name.as_bytes());
    let (line, _after) = split_line(text);
    let first = read_outcomes(alloc, fronts, line)?;
    keyless(alloc, fronts, &first, text)
}

/// The number of lines of a text that are not read, if none has a key and more than one is not
/// read. `first` is the outcomes of its first line.
#[tactic(auto, unfolding(crate::specs::Keyless::keyless))]
pub fn keyless(
    alloc: Global,
    fronts: Fronts,
    first: &Outcomes<'_>,
    text: &[u8],
) -> Result<Option<u64>, AllocError>
    ensures { (given : OutcomesOf) (lines : List OutcomesOf) → GivesOutcomes first.now given
        → read_all fronts (slice_split is_newline text.now) ≡ given ∷ lines
        → IfOk result (λ count. count ≡ keyless (given ∷ lines)) }
{
    match first.first {
        Outcome::Key(_) => Ok(None),
        Outcome::Empty | Outcome::Unread(_) => Ok(many(unread_alone(alloc, fronts, text)?)),
    }
}

// A count above 1.
fn many(count: Option<u64>) -> Option<u64>
    ensures { result ≡ many count }
{
    match count {
        Some(count) if count > 1 => Some(count),
        _ => None,
    }
}

// The number of lines of a text that are not read, if none has a key. Stops at the first key.
fn unread_alone(alloc: Global, fronts: Fronts, text: &[u8]) -> Result<Option<u64>, AllocError>
    ensures { IfOk result (λ count. count
        ≡ unread_alone (read_all fronts (slice_split is_newline text.now))) }
{
    let mut rest = text;
    let mut count: u64 = 0;
    loop {
        let (line, after) = split_line(rest);
        let Some(more) = count_line(alloc, fronts, line, count)? else {
            return Ok(None);
        };
        count = more;
        let Some(after) = after else {
            return Ok(Some(count));
        };
        rest = after;
    }
}

// The count with one more line, if the line has no key.
fn count_line(
    alloc: Global,
    fronts: Fronts,
    line: &[u8],
    count: u64,
) -> Result<Option<u64>, AllocError>
    requires { count + 1 < 2 ^ 64 }
    ensures counts { IfOk result (λ more. (lines : List OutcomesOf)
        → more_unread count (unread_alone (outcomes_of fronts line.now ∷ lines))
        ≡ unread_with more lines) }
    ensures within { IfOk result (λ more. IfSome more (λ more. more ≤ count + 1)) }
{
    let read = read_outcomes(alloc, fronts, line)?;
    if let Some(Outcome::Key(_)) = read.second {
        return Ok(None);
    }
    match read.first {
        Outcome::Empty => Ok(Some(count)),
        Outcome::Key(_) => Ok(None),
        Outcome::Unread(_) => Ok(Some(count + 1)),
    }
}
