//! The list that is asked for.

ghost use Rattle.std.specs.Prelude.{◌≡◌};
ghost use Rattle.text_run.specs.Making.{day_at};

use crate::text::Text;

// The seconds of a day.
const DAY: u64 = 86_400;

/// The day of a date in seconds since 1970, by its number from 1970-01-01 on.
pub(crate) fn day_of(date: u64) -> u64
    ensures { result ≡ day_at date }
{
    date / DAY
}

/// How a list that is made follows the one under its name.
#[derive(Clone, Copy, PartialEq, Eq)]
pub enum Over {
    /// Nothing: that one is not read.
    Nothing,
    /// A version above that one's.
    Version,
    /// All that it names, its comment and a version above its own.
    Contents,
}

/// The list that is asked for, and the texts that it is made of.
#[derive(Drop)]
pub struct Inputs<'a> {
    /// The name of the list.
    pub name: &'a str,
    /// How it follows the list under its name.
    pub over: Over,
    /// Its version, unless that of the old list decides it.
    pub version: Option<u64>,
    /// Its date in seconds since 1970.
    pub date: u64,
    /// Its comment, unless it has that of the old list or none.
    pub comment: Option<&'a str>,
    /// Whether it may name nothing, and whether a text may have no entry.
    pub allow_empty: bool,
    /// The texts.
    pub texts: &'a [Text<'a>],
}

impl<'a> Inputs<'a> {
    // The day of its date, by its number from 1970-01-01 on.
    pub(crate) fn day(&self) -> u64
        ensures { result ≡ day_at self.now.date }
    {
        day_of(self.date)
    }
}
