//! Laws of differences. Each function does nothing: its contract is the law.

ghost use Rattle.std.specs.Prelude.{◌≡◌, ◌↔◌, List};
ghost use Rattle.krl_types.specs.Entry.{Entry};
ghost use Rattle.krl_types.specs.Naming.{NamesSame};
ghost use Rattle.krl_entries.specs.Revocations.{Means, Revocations, nothing};
ghost use Rattle.list_diff.specs.Without.{HoldsWithout};

/// Two lists name the same exactly if neither names anything that the other does not.
pub fn same_without_difference()
    ensures { (old new added removed : Revocations) (olds news : List Entry)
        → Means old olds → Means new news
        → HoldsWithout old new added → HoldsWithout new old removed
        → (NamesSame olds news ↔ ((added ≡ nothing) × (removed ≡ nothing))) }
{}
