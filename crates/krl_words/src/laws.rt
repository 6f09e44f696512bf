//! Laws of the command line. Each function does nothing: its contract is the law.

ghost use Rattle.std.specs.Prelude.{◌≡◌, ◌++◌, ◌∷◌, ℕ, List, true};
ghost use Rattle.krl_words.specs.Order.{is_divided};
ghost use Rattle.krl_words.specs.Parts.{NameAuthority, NameFile};

/// A file between two uses of `-s` is found, wherever it is: the words before it have a use of
/// `-s`, the words after it have another one, and `clap` itself reads each of these parts so.
pub fn files_between_authorities_are_found()
    ensures { (name : List ℕ) (front between back rest : List (List ℕ))
        → NameAuthority name front → NameFile name between → NameAuthority name back
        → is_divided (name ∷ (front ++ (between ++ (back ++ rest)))) ≡ true }
{}
