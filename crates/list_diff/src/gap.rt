//! The first gap of a set from a number on.

ghost use Rattle.std.specs.Prelude.{◌≡◌, ◌+◌, ◌<◌, ◌≤◌, List, MatchOption};
ghost use Rattle.serial_set.specs.declared.span.Span.{Span};
ghost use Rattle.list_diff.specs.Ahead.{IsFirstFrom};
ghost use Rattle.list_diff.specs.Gap.{IsGap};

use serial_set::Span;

/// The numbers from one on that are no members, up to the last of them, if it is none itself, and
/// where the search continues after the members that follow.
#[derive(Clone, Copy)]
pub(crate) struct Gap {
    pub(crate) last: Option<u64>,
    pub(crate) next: Option<u64>,
}

/// The first gap from `lo` on, within the numbers up to `hi`, where `first` has the first members
/// from `lo` on.
pub(crate) fn gap_of(first: Option<Span>, lo: u64, hi: u64) -> Gap
    requires { lo ≤ hi }
    ensures { (others : List Span) → IsFirstFrom others lo first → IsGap lo hi others result }
{
    let Some(run) = first else {
        return Gap {
            last: Some(hi),
            next: None,
        };
    };
    if hi < run.lo {
        return Gap {
            last: Some(hi),
            next: None,
        };
    }
    let last = last_below(run.lo, lo);
    let next = next_past(run.hi, hi);
    Gap { last, next }
}

// The number before a run, if it is not below `lo`.
fn last_below(begin: u64, lo: u64) -> Option<u64>
    ensures { MatchOption result (begin ≤ lo) (λ last. (lo ≤ last) × (last + 1 ≡ begin)) }
{
    if lo < begin { Some(begin - 1) } else { None }
}

// The number after a run, if it is at most `hi`.
fn next_past(end: u64, hi: u64) -> Option<u64>
    ensures { MatchOption result (hi ≤ end) (λ next. (next ≡ end + 1) × (next ≤ hi)) }
{
    if end < hi { Some(end + 1) } else { None }
}
