//! Laws of the definitions. Each function does nothing: its contract is the law.
ghost use Rattle.std.specs.Prelude.{◌≡◌, ◌+◌, ◌*◌, ◌≤◌, ◌↔◌, ◌⊎◌, ◌++◌, ◌∷◌, [], ℕ, List, length};
ghost use Rattle.serial_set.specs.declared.span.Span.{Span};
ghost use Rattle.serial_set.specs.Span.{Covers, IsRuns, IsRunsOf, AreSerials};
ghost use Rattle.serial_set.specs.BitRuns.{BitRuns, start, lowest, BitNames, big_endian, Feeds};
ghost use Rattle.serial_set.specs.BitRuns.{FeedsAll, runs_after};
ghost use Rattle.serial_set.specs.Joined.{Rises, joined};
ghost use Rattle.serial_set.specs.Laws.{AfterFeeding};

/// A set has one list of runs.
pub fn runs_are_unique()
    ensures { (xs ys : List Span) → IsRuns xs → IsRuns ys → ((s : ℕ) → Covers xs s ↔ Covers ys s)
        → xs ≡ ys }
{}

/// No list of intervals with the same members is shorter than the runs.
pub fn runs_are_fewest()
    ensures { (runs others : List Span) → IsRuns runs → ((s : ℕ) → Covers runs s ↔ Covers others s)
        → length runs ≤ length others }
{}

/// Spans that rise and may touch have the same members as their runs, in which those that touch are
/// joined.
pub fn joined_are_runs()
    ensures { (spans : List Span) → Rises 0 spans
        → IsRunsOf (joined spans) (λ s. Covers spans s) }
{}

/// At each moment the pending run and all finished ones are the runs of the bits that were fed.
/// There are at most four for each byte.
pub fn fed_so_far()
    ensures runs { AfterFeeding (λ offset len bytes after finished.
        IsRunsOf (runs_after after finished) (λ s. BitNames (lowest after) (big_endian bytes) s)) }
    ensures serials { AfterFeeding (λ offset len bytes after finished.
        AreSerials (runs_after after finished)) }
    ensures four_a_byte { AfterFeeding (λ offset len bytes after finished.
        length (runs_after after finished) ≤ 4 * length bytes) }
    ensures position { AfterFeeding (λ offset len bytes after finished.
        (after.bytes_left + length bytes ≡ len) × (after.offset ≡ offset)) }
{}

/// Feeding all bytes of a bitmap gives exactly the runs of `offset` + N for each set bit N of its
/// big-endian number, except 0.
pub fn whole_bitmap()
    ensures { AfterFeeding (λ offset len bytes after finished. length bytes ≡ len
        → IsRunsOf (runs_after after finished) (λ s. BitNames offset (big_endian bytes) s)) }
{}

/// One byte that is fed after others.
pub fn one_byte_more()
    ensures { (before middle after : BitRuns) (bytes : List ℕ) (byte : ℕ)
        (finished more : List Span)
        → FeedsAll before bytes middle finished → Feeds middle byte after more
        → FeedsAll before (bytes ++ byte ∷ []) after (finished ++ more) }
{}
