//! Binary search for a number in an ascending list of spans.
ghost use Rattle.std.specs.Prelude.{◌+◌, ◌<◌, ◌≤◌, length, take, drop, nat_lt, nat_le, ◌≡◌, ◌-◌};
ghost use Rattle.std.specs.List.{All};
ghost use Rattle.serial_set.specs.Span.{IsRuns};

use serial_set::Span;

/// How many spans end before a number.
pub fn count_ending_before(spans: &[Span], number: u64) -> usize
    requires { IsRuns spans.now }
    ensures within { result ≤ length spans.now }
    ensures before { All (λ t. t.hi < number) (take result spans.now) }
    ensures rest { All (λ t. number ≤ t.hi) (drop result spans.now) }
{
    spans.partition_point(
        |span: &Span| -> bool
            ensures { result ≡ nat_lt span.now.hi number }
        { span.hi < number },
    )
}

/// How many spans begin at the number after `number`, or lower.
pub fn count_beginning_by(spans: &[Span], number: u64) -> usize
    requires { IsRuns spans.now }
    ensures within { result ≤ length spans.now }
    ensures by { All (λ t. t.lo ≤ number + 1) (take result spans.now) }
    ensures rest { All (λ t. number + 1 < t.lo) (drop result spans.now) }
{
    // `number + 1` overflows at the largest number, so the beginning is lowered instead.
    spans.partition_point(
        |span: &Span| -> bool
            ensures { result ≡ nat_le (span.now.lo - 1) number }
        { span.lo.saturating_sub(1) <= number },
    )
}
