//! Why bytes could not be taken from a reader.

ghost use Rattle.std.specs.Prelude.{◌≡◌, Some};
ghost use Rattle.ssh_wire.specs.PullFault.{pull_fault_number, pull_fault_text};

use std::error::Error;
use std::fmt;

/// Why the next field of a reader could not be taken.
#[derive(Clone, Copy, Debug, PartialEq, Eq)]
pub enum PullFault {
    /// The reader ended within the field, at or before the limit.
    EndsEarly,
    /// The field exceeds the limit, and the reader has bytes past it.
    TooLong,
    /// The reader failed.
    Read,
    /// An allocation for the field failed.
    NoMemory,
}

impl PullFault {
    /// The fault's number, 1 to 4 in the order of the variants.
    pub fn number(self) -> u8
        ensures { result ≡ pull_fault_number self }
    {
        match self {
            PullFault::EndsEarly => 1,
            PullFault::TooLong => 2,
            PullFault::Read => 3,
            PullFault::NoMemory => 4,
        }
    }
}

impl fmt::Display for PullFault {
    ghost output = { λ fault. Some (pull_fault_text fault) };

    fn fmt<W: fmt::Write>(&self, f: &mut fmt::Formatter<W>) -> fmt::Result {
        let text = match self {
            PullFault::EndsEarly => "pull 1 EndsEarly",
            PullFault::TooLong => "pull 2 TooLong",
            PullFault::Read => "pull 3 Read",
            PullFault::NoMemory => "pull 4 NoMemory",
        };
        f.write_str(text)
    }
}

impl Error for PullFault {}
