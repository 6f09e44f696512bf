//! The sides of a comparison.

ghost use Rattle.std.specs.Prelude.{◌≡◌};
ghost use Rattle.list_text.specs.Changes.{side_word};

/// The side of a comparison of two lists that a fact is about.
#[derive(Clone, Copy)]
pub enum Side {
    /// The new list names it, and the old one does not.
    Added,
    /// The old list names it, and the new one does not.
    Removed,
}

impl Side {
    /// Its name in JSON objects.
    pub(crate) fn word(self) -> &'static str
        ensures { result.now ≡ side_word self }
    {
        match self {
            Side::Added => "added",
            Side::Removed => "removed",
        }
    }
}
