//! How an iteration over runs continues.
ghost use Rattle.std.specs.Prelude.{◌≡◌};
ghost use Rattle.serial_set.specs.Iteration.{next_of};

use crate::span::Span;

/// The number at which an iteration continues after some runs, or none if it has come to its end:
/// if there is no run, or if the last one ends at the last number.
pub fn next_after(runs: &[Span]) -> Option<u64>
    ensures { result ≡ next_of runs.now }
{
    if runs.is_empty() {
        return None;
    }
    runs[runs.len() - 1].hi.checked_add(1)
}
