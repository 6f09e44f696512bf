//! Groups of runs, each named by one subsection (PROTOCOL.krl).
ghost use Rattle.std.specs.Prelude.{◌≡◌};
ghost use Rattle.krl_plan.specs.Sorts.{rank};

/// The sort of a serial subsection (PROTOCOL.krl, certificate sections).
#[derive(Clone, Copy, PartialEq, Eq)]
pub enum Sort {
    /// Each serial by itself.
    Serials,
    /// A first and a last serial.
    Range,
    /// A first serial, and a bit for it and for each serial after it.
    Bitmap,
}

/// Runs that one subsection names: the first ones that no earlier group has.
#[derive(Clone, Copy, PartialEq, Eq)]
pub struct Group {
    /// The sort of the subsection.
    pub sort: Sort,
    /// How many runs it names, 1 to 1,024.
    pub count: u16,
}

impl Sort {
    // Among plans that cost the same, the sort with the lowest rank is preferred.
    pub(crate) fn rank(self) -> u8
        ensures { result ≡ rank self }
    {
        match self {
            Sort::Serials => 0,
            Sort::Range => 1,
            Sort::Bitmap => 2,
        }
    }
}
