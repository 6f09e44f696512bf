//! The faults of a bitmap.
ghost use Rattle.std.specs.Prelude.{◌≡◌};
ghost use Rattle.serial_set.specs.BitFault.{fault_number};

/// Why a bitmap cannot be read.
#[derive(Clone, Copy)]
pub enum BitFault {
    /// The first byte is 0x80 or more, so the bitmap's number is negative.
    Negative,
    /// A set bit represents a number past 2^64-1.
    Wraps,
}

impl BitFault {
    /// The fault's number, 1 or 2 in the order of the variants.
    pub fn number(self) -> u8
        ensures { result ≡ fault_number self }
    {
        match self {
            BitFault::Negative => 1,
            BitFault::Wraps => 2,
        }
    }
}
