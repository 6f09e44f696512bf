//! Why a plain list is refused.

ghost use Rattle.std.specs.Prelude.{◌≡◌};
ghost use Rattle.plain_list.specs.declared.fault.PlainFault.TheVariants.{NoMemory};

use keyed_lines::KeyCause;
use std::alloc::AllocError;

/// Why a plain list is refused: its length, or its first line that is refused.
#[derive(Clone, Copy, PartialEq, Eq)]
pub enum PlainFault {
    /// It has more than 67,108,864 bytes.
    TooLong,
    /// A line, counted from 1, is neither empty nor a comment nor a key. If something is before
    /// the key, it is no key line. A key of which a number has more than 16,384 bits is `TooLong`,
    /// and one whose point is not on its curve `Point`.
    Line { number: u64, cause: KeyCause },
    /// An allocation failed.
    NoMemory,
}

impl From<AllocError> for PlainFault {
    ghost from_gives = { λ _ fault. fault ≡ NoMemory };

    fn from(_refused: AllocError) -> PlainFault {
        PlainFault::NoMemory
    }
}
