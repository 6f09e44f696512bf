//! Serial numbers that one set has and another does not.

ghost use Rattle.std.specs.Prelude.{◌≡◌, ◌<◌, ◌≤◌, All, IfSome, OnOk};
ghost use Rattle.list_diff.specs.Gap.{IsUpTo, LostBetween};
ghost use Rattle.serial_set.specs.BitRuns.{IsInterval};
ghost use Rattle.list_diff.specs.Ahead.{spans_in};
ghost use Rattle.list_diff.specs.Lost.{Gains, LostSerial, SerialWith};

use crate::ahead::Ahead;
use crate::gap::gap_of;
use krl_entries::Revocations;
use serial_set::{Span, Spans};
use std::alloc::AllocError;

/// Adds the serial numbers of a set that another one, or none, does not have.
pub(crate) fn add_serials<S: Spans>(
    gone: &mut Revocations<S>,
    authority: &[u8],
    set: &S,
    other: Option<&S>,
) -> Result<(), AllocError>
    ensures { OnOk result (Gains gone.old
        (SerialWith authority.now (LostSerial (S.spans set.now) (spans_in S.spans other.entry)))
        gone.new) }
{
    let mut others = Ahead::new(other);
    let mut next = Some(0);
    while let Some(number) = next {
        let piece = set.piece_from(number);
        add_spans(gone, authority, piece.as_slice(), &mut others)?;
        next = piece.next();
    }
    Ok(())
}

// Adds the serial numbers of some spans that another set does not have.
fn add_spans<S: Spans>(
    gone: &mut Revocations<S>,
    authority: &[u8],
    spans: &[Span],
    others: &mut Ahead<'_, S>,
) -> Result<(), AllocError>
    requires { All IsInterval spans.now }
    ensures same { others.new ≡ others.old }
    ensures gains { OnOk result (Gains gone.old
        (SerialWith authority.now (LostSerial spans.now others.old)) gone.new) }
{
    for span in spans {
        add_span(gone, authority, *span, others)?;
    }
    Ok(())
}

// Adds the serial numbers of a span that another set does not have.
fn add_span<S: Spans>(
    gone: &mut Revocations<S>,
    authority: &[u8],
    span: Span,
    others: &mut Ahead<'_, S>,
) -> Result<(), AllocError>
    requires { IsInterval span }
    ensures same { others.new ≡ others.old }
    ensures gains { OnOk result (Gains gone.old
        (SerialWith authority.now (LostBetween span.lo span.hi others.old)) gone.new) }
{
    let mut next = Some(span.lo);
    while let Some(lo) = next {
        let gap = gap_of(others.first_from(lo), lo, span.hi);
        add_gap(gone, authority, lo, gap.last)?;
        next = gap.next;
    }
    Ok(())
}

// Adds the serial numbers from one on to the last one of a gap, if there is one.
fn add_gap<S: Spans>(
    gone: &mut Revocations<S>,
    authority: &[u8],
    lo: u64,
    last: Option<u64>,
) -> Result<(), AllocError>
    requires from_one { 0 < lo }
    requires ordered { IfSome last (λ last. lo ≤ last) }
    ensures { OnOk result (Gains gone.old (SerialWith authority.now (IsUpTo lo last)) gone.new) }
{
    match last {
        Some(last) => gone.add_serials(authority, lo, last),
        None => Ok(()),
    }
}
