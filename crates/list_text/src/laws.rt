//! Laws of what is printed of lists. Each function does nothing: its contract is the law.

ghost use Rattle.std.specs.Prelude.{◌≡◌, ◌≤◌, ◌<◌, ◌^◌, List, length};
ghost use Rattle.std.specs.List.{AllByRecursion};
ghost use Rattle.list_text.specs.Counts.{counted_all, nothing_counted, serials_in, serials_of};
ghost use Rattle.list_text.specs.Facts.{Fact};

/// The count of serial numbers is their sum over all facts, as long as a fact has no more than a
/// certificate authority may have, and there are fewer than 2^64 facts.
pub fn serials_are_counted_exactly()
    ensures { (facts : List Fact) → AllByRecursion (λ fact. serials_in fact ≤ 2 ^ 64) facts
        → length facts < 2 ^ 64
        → (counted_all nothing_counted facts).serials ≡ serials_of facts }
{}
