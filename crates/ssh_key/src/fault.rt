//! Why blobs are not keys.

ghost use Rattle.std.specs.Prelude.{◌≡◌, Some};
ghost use Rattle.ssh_key.specs.KeyFault.{key_fault_number, key_fault_text};
ghost use Rattle.ssh_key.specs.declared.fault.KeyFault.TheVariants.{Wire};

use ssh_wire::WireFault;
use std::error::Error;
use std::fmt;

/// Why a blob is not a key. If there are several faults, the first is reported, in the order of the
/// fields. It prints as `key`, its number and its name; after `Wire` comes the fault of the field.
#[derive(Clone, Copy, Debug, PartialEq, Eq)]
pub enum KeyFault {
    /// A field is truncated or misspelt.
    Wire(WireFault),
    /// The type name is not that of a plain key. The name of a certificate type is not.
    UnknownType,
    /// The curve's name is not that of the kind.
    Curve,
    /// A point is not as long as the curve's, or is not uncompressed.
    Point,
    /// A field of 32 bytes has another length, or an application has a zero byte.
    Length,
    /// A number is zero.
    Number,
    /// Bytes follow the last field.
    Trailing,
    /// The blob is longer than 65,536 bytes. Reported before all other faults.
    TooLong,
}

impl KeyFault {
    /// The fault's number, 1 to 8 in the order of the variants.
    pub fn number(self) -> u8
        ensures { result ≡ key_fault_number self }
    {
        match self {
            KeyFault::Wire(_) => 1,
            KeyFault::UnknownType => 2,
            KeyFault::Curve => 3,
            KeyFault::Point => 4,
            KeyFault::Length => 5,
            KeyFault::Number => 6,
            KeyFault::Trailing => 7,
            KeyFault::TooLong => 8,
        }
    }
}

impl fmt::Display for KeyFault {
    ghost output = { λ fault. Some (key_fault_text fault) };

    fn fmt<W: fmt::Write>(&self, f: &mut fmt::Formatter<W>) -> fmt::Result {
        match self {
            KeyFault::Wire(fault) => write!(f, "key 1 Wire, {fault}"),
            KeyFault::UnknownType => f.write_str("key 2 UnknownType"),
            KeyFault::Curve => f.write_str("key 3 Curve"),
            KeyFault::Point => f.write_str("key 4 Point"),
            KeyFault::Length => f.write_str("key 5 Length"),
            KeyFault::Number => f.write_str("key 6 Number"),
            KeyFault::Trailing => f.write_str("key 7 Trailing"),
            KeyFault::TooLong => f.write_str("key 8 TooLong"),
        }
    }
}

impl Error for KeyFault {}

impl From<WireFault> for KeyFault {
    ghost from_gives = { λ fault key. key ≡ Wire fault };

    fn from(fault: WireFault) -> KeyFault {
        KeyFault::Wire(fault)
    }
}
