//! Laws of revocations and the entries that they mean.

ghost use Rattle.std.specs.Prelude.{◌≡◌, List};
ghost use Rattle.krl_entries.specs.Revocations.{Revocations, Means};
ghost use Rattle.krl_types.specs.Entry.{Entry};
ghost use Rattle.krl_types.specs.Naming.{NamesSame};

/// Revocations mean any other list of entries that names the same.
pub fn naming_decides_meaning()
    ensures { (r : Revocations) (entries others : List Entry) → Means r entries
        → NamesSame entries others → Means r others }
{}

/// All lists of entries that revocations mean name the same.
pub fn meaning_decides_naming()
    ensures { (r : Revocations) (entries others : List Entry) → Means r entries → Means r others
        → NamesSame entries others }
{}

/// The entries decide the revocations: any two that mean the same entries are equal.
pub fn entries_decide_what_is_held()
    ensures { (r other : Revocations) (entries : List Entry) → Means r entries → Means other entries
        → r ≡ other }
{}
