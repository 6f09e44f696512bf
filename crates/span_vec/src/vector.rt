//! A set of serials as one sorted vector of intervals.
ghost use Rattle.std.specs.Prelude.{◌≡◌, ◌+◌, ◌<◌, ◌≤◌, ◌⊎◌, ◌∷◌, ◌++◌, length, take, drop, All};
ghost use Rattle.std.specs.Prelude.{OnOk, OnErr};
ghost use Rattle.std.specs.Vec.{vec_len, vec_capacity};
ghost use Rattle.serial_set.specs.BitRuns.{IsInterval};
ghost use Rattle.serial_set.specs.Near.{AddsSpans};
ghost use Rattle.span_vec.specs.OneWay.{RunsFrom-prop};
ghost use Rattle.serial_set.specs.Span.{AddsSpan, AreSerials, IsRuns};

use crate::search::{count_beginning_by, count_ending_before};
use serial_set::{Piece, Span, Spans};
use std::alloc::{AllocError, Global};

/// The runs in one sorted vector. A binary search finds a member and the place of an addition; an
/// addition moves the spans after it once.
#[derive(Drop)]
pub struct SpanVec {
    items: Vec<Span>,
    ghost runs: { IsRuns items.items } by { RunsFrom-prop 0 items.items },
    ghost serials: { AreSerials items.items },
}

impl Spans for SpanVec {
    ghost spans = { λ set. set.items.items };

    ghost law = { λ set. (set.runs, set.serials) };

    fn empty(alloc: Global) -> Result<SpanVec, AllocError> {
        Ok(SpanVec {
            items: Vec::new(alloc),
        })
    }

    // Fails only if the vector has no room for one more.
    fn add(&mut self, lo: u64, hi: u64) -> Result<(), AllocError>
        requires from_one { 0 < lo }
        requires ordered { lo ≤ hi }
        ensures runs { OnOk result (AddsSpan self.old.items.items lo hi self.new.items.items) }
        ensures one_more { vec_len self.new.items ≤ vec_len self.old.items + 1 }
        ensures refused { OnErr result (self.new.items.items ≡ self.old.items.items) }
        ensures full { OnErr result (vec_capacity self.old.items ≤ vec_len self.old.items) }
    {
        add_to(&mut self.items, lo, hi)
    }

    // Room for all spans is reserved before the first is added.
    fn add_near(&mut self, near: &[Span]) -> Result<(), AllocError> {
        self.items.reserve(near.len())?;
        add_all(&mut self.items, near);
        Ok(())
    }

    fn has(&self, serial: u64) -> bool {
        let at = count_ending_before(&self.items, serial);
        at < self.items.len() && self.items[at].lo <= serial
    }

    fn meets(&self, lo: u64, hi: u64) -> bool {
        let at = count_ending_before(&self.items, lo);
        at < self.items.len() && self.items[at].lo.max(lo) <= hi
    }

    fn len(&self) -> usize {
        self.items.len()
    }

    fn get(&self, at: usize) -> Span {
        self.items[at]
    }

    fn piece_from(&self, number: u64) -> Piece {
        let at = count_ending_before(&self.items, number);
        Piece::from(&self.items[at..], number)
    }
}

// Adds spans one after another, within the capacity.
fn add_all(items: &mut Vec<Span>, spans: &[Span])
    requires runs { IsRuns items.old.items }
    requires serials { AreSerials items.old.items }
    requires intervals { All IsInterval spans.now }
    requires room { vec_len items.old + length spans.now ≤ vec_capacity items.old }
    ensures runs { AddsSpans items.old.items spans.now items.new.items }
    ensures serials { AreSerials items.new.items }
{
    for span in spans {
        let _ = add_to(items, span.lo, span.hi);
    }
}

// The spans from `first` up to `end` are those that the new one touches. If it touches none, the
// list grows, and nothing changes before it has grown.
fn add_to(items: &mut Vec<Span>, lo: u64, hi: u64) -> Result<(), AllocError>
    requires runs { IsRuns items.old.items }
    requires from_one { 0 < lo }
    requires ordered { lo ≤ hi }
    ensures runs { OnOk result (AddsSpan items.old.items lo hi items.new.items) }
    ensures one_more { length items.new.items ≤ length items.old.items + 1 }
    ensures refused { OnErr result (items.new.items ≡ items.old.items) }
    ensures full { OnErr result (vec_capacity items.old ≤ vec_len items.old) }
    ensures capacity { vec_capacity items.old ≤ vec_capacity items.new }
{
    // A span that ends at `lo - 1` touches.
    let first = count_ending_before(items, lo - 1);
    let end = count_beginning_by(items, hi);
    if first < end {
        let lo = lo.min(items[first].lo);
        let hi = hi.max(items[end - 1].hi);
        join(items, first, end, Span { lo, hi });
        return Ok(());
    }
    items.insert(first, Span { lo, hi })?;
    Ok(())
}

/// Replaces the spans from `first` up to `end` with one, and moves those after them once.
pub fn join(items: &mut Vec<Span>, first: usize, end: usize, span: Span)
    requires some { first < end }
    requires within { end ≤ vec_len items.old }
    ensures items { items.new.items
        ≡ take first items.old.items ++ span ∷ drop end items.old.items }
    ensures capacity { vec_capacity items.new ≡ vec_capacity items.old }
{
    let left = items.len() - (end - first - 1);
    items[first] = span;
    items.copy_within(end.., first + 1);
    items.truncate(left);
}
