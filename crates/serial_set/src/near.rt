//! Spans that lie near each other.
ghost use Rattle.std.specs.Prelude.{◌/◌, ◌<◌, ◌≤◌, ◌↔◌, length, take, IsTrue};
ghost use Rattle.serial_set.specs.Near.{AreNear, LiesIn};

use crate::span::Span;

/// How many spans, from the first on, `Spans::add_near` takes: as many as lie in one window of 64
/// numbers, and at least one.
pub fn count_near(spans: &[Span]) -> usize
    requires { 0 < length spans.now }
    ensures some { 0 < result }
    ensures within { result ≤ length spans.now }
    ensures near { AreNear (take result spans.now) }
{
    if spans.len() == 1 {
        return 1;
    }
    let window = spans[0].lo / 64;
    let mut count = 0;
    while count < spans.len() && lies_in(spans[count], window) {
        count += 1;
    }
    count.max(1)
}

// Whether a span lies in a window.
fn lies_in(span: Span, window: u64) -> bool
    ensures { IsTrue result ↔ LiesIn window span }
{
    span.lo / 64 == window && span.hi / 64 == window
}
