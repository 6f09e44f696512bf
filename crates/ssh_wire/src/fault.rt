//! Why a field could not be read.

ghost use Rattle.std.specs.Prelude.{◌≡◌, Some};
ghost use Rattle.ssh_wire.specs.Fault.{fault_number, fault_text};

use std::error::Error;
use std::fmt;

/// Why a field could not be read.
#[derive(Clone, Copy, Debug, PartialEq, Eq)]
pub enum WireFault {
    /// Fewer bytes are left than the field takes.
    Short,
    /// A multiple precision integer is negative.
    Negative,
    /// A multiple precision integer has a leading byte that could be omitted.
    NotShortest,
}

impl WireFault {
    /// The fault's number, 1 to 3 in the order of the variants.
    pub fn number(self) -> u8
        ensures { result ≡ fault_number self }
    {
        match self {
            WireFault::Short => 1,
            WireFault::Negative => 2,
            WireFault::NotShortest => 3,
        }
    }
}

impl fmt::Display for WireFault {
    ghost output = { λ fault. Some (fault_text fault) };

    fn fmt<W: fmt::Write>(&self, f: &mut fmt::Formatter<W>) -> fmt::Result {
        let text = match self {
            WireFault::Short => "wire 1 Short",
            WireFault::Negative => "wire 2 Negative",
            WireFault::NotShortest => "wire 3 NotShortest",
        };
        f.write_str(text)
    }
}

impl Error for WireFault {}
