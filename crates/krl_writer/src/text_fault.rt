//! Why a list has no text.

ghost use Rattle.std.specs.Prelude.{◌≡◌};
ghost use Rattle.krl_writer.specs.InLimit.{text_fault_number};
ghost use Rattle.krl_writer.specs.declared.text_fault.TextFault.TheVariants.{NoMemory};

use std::alloc::AllocError;

/// Why a list has no text.
#[derive(Clone, Copy, Debug, PartialEq, Eq)]
pub enum TextFault {
    /// An allocation failed.
    NoMemory,
    /// The text is longer than 67,108,864 bytes, so it could not be read.
    TooLong,
}

impl TextFault {
    /// The fault's number, 1 or 2 in the order of the variants.
    pub fn number(self) -> u8
        ensures { result ≡ text_fault_number self }
    {
        match self {
            TextFault::NoMemory => 1,
            TextFault::TooLong => 2,
        }
    }
}

impl From<AllocError> for TextFault {
    ghost from_gives = { λ _ fault. fault ≡ NoMemory };

    fn from(_refused: AllocError) -> TextFault {
        TextFault::NoMemory
    }
}
