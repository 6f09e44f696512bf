//! Laws of the definitions. Each function does nothing: its contract is the law.
ghost use Rattle.std.specs.Prelude.{◌+◌, ◌*◌, ◌<◌, ◌≤◌, ◌⊎◌, ℕ, List, length, All};
ghost use Rattle.serial_set.specs.declared.span.Span.{Span};
ghost use Rattle.span_sets.specs.declared.chunk.Chunk.{Chunk};
ghost use Rattle.span_sets.specs.declared.span_pages.SpanPages.{SpanPages};
ghost use Rattle.span_sets.specs.Chunk.{ChunksFrom, hi_of, runs_of};
ghost use Rattle.span_sets.specs.Chunks.{Keeps, Replaces};
ghost use Rattle.serial_set.specs.Span.{Covers, IsRunsOf};
ghost use Rattle.span_sets.specs.SpanPages.{chunks_held};

/// If chunks are replaced by others that have their members and some more, the runs are those of
/// the members before and of the additional ones.
pub fn replaced_adds()
    ensures { (old : List Chunk) (lo hi : ℕ) (few new : List Chunk) (more : List Span)
        (r : Replaces old lo hi few new) → Keeps r.middle few (λ s. Covers more s) → lo ≤ hi
        → ChunksFrom 0 old → ChunksFrom lo few → All (λ e. hi_of e < hi + 1) few
        → IsRunsOf (runs_of new) (λ s. Covers (runs_of old) s ⊎ Covers more s) }
{}

/// A set has at most three chunks for each of its runs, whatever was added and in which order: so a
/// bound on its intervals bounds its memory.
pub fn three_chunks_a_run()
    ensures { (set : SpanPages)
        → length (chunks_held set) ≤ 3 * length (runs_of (chunks_held set)) }
{}
