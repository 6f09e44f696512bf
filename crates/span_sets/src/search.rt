//! Binary search for a number among elements whose ends rise.
ghost use Rattle.std.specs.Prelude.{◌≡◌, ◌<◌, ◌≤◌, ℕ, length, take, drop, nat_lt, nat_le};
ghost use Rattle.std.specs.List.{All};
ghost use Rattle.std.specs.List.Sorted.{IsNonDecreasingBy};

/// An element with an end: a span, a chunk, a page of chunks.
pub trait HasEnd {
    ghost end: { Self → ℕ };

    fn end(&self) -> u64
        ensures { result ≡ end self.now };
}

/// How many elements end below a number. Their ends must rise.
pub fn count_ending_below<T: HasEnd>(items: &[T], number: u64) -> usize
    requires { IsNonDecreasingBy T.end items.now }
    ensures within { result ≤ length items.now }
    ensures below { All (λ t. T.end t < number) (take result items.now) }
    ensures reach { All (λ t. number ≤ T.end t) (drop result items.now) }
{
    items.partition_point(
        |item: &T| -> bool
            ensures { result ≡ nat_lt (T.end item.now) number }
        { item.end() < number },
    )
}

/// How many of them end at a number or below it. It counts them one by one, since a caller removes
/// each of them afterwards.
pub fn count_ending_upto<T: HasEnd>(items: &[T], number: u64) -> usize
    requires { IsNonDecreasingBy T.end items.now }
    ensures within { result ≤ length items.now }
    ensures upto { All (λ t. T.end t ≤ number) (take result items.now) }
    ensures past { All (λ t. number < T.end t) (drop result items.now) }
{
    let mut count = 0;
    while count < items.len() && items[count].end() <= number {
        count += 1;
    }
    count
}
