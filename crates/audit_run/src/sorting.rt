//! The order of the names of a directory.

ghost use Rattle.std.specs.Prelude.{IsPermutation};
ghost use Rattle.std.specs.List.Sorted.{IsSorted};
ghost use Rattle.std.specs.Ordering.{nat_cmp};
ghost use Rattle.std.specs.Cmp.Lexicographic.{slice_cmp};

/// Sorts the names of a directory by their bytes.
pub fn sort_names(names: &mut Vec<Vec<u8>>)
    ensures same { IsPermutation names.old.items names.new.items }
    ensures ordered { IsSorted (λ x y. slice_cmp nat_cmp x.items y.items) names.new.items }
{
    names.sort_unstable();
}
