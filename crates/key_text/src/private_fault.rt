//! Why private containers are refused.

ghost use Rattle.std.specs.Prelude.{◌≡◌, Some};
ghost use Rattle.key_text.specs.PrivateFault.{private_fault_number, private_fault_text};
ghost use Rattle.key_text.specs.declared.private_fault.PrivateFault.TheVariants.{Key, NoMemory};
ghost use Rattle.key_text.specs.declared.private_fault.PrivateFault.TheVariants.{Wire};

use ssh_key::KeyFault;
use ssh_wire::WireFault;
use std::alloc::AllocError;
use std::error::Error;
use std::fmt;

/// Why a text is not a private container that can be read. It prints as `private`, its number and
/// its name; after `Key` and `Wire` comes the fault that they carry.
#[derive(Clone, Copy, Debug, PartialEq, Eq)]
pub enum PrivateFault {
    /// The first line does not begin a container, or no line ends it.
    Armour,
    /// The text between these lines is not base64 with padding, its unused bits zero.
    Base64,
    /// The bytes do not begin with the name of the format.
    Magic,
    /// The container is encrypted.
    Encrypted,
    /// It does not have exactly one key.
    KeyCount,
    /// The two check words differ.
    Check,
    /// The public key is invalid, or a private field of its kind has another length.
    Key(KeyFault),
    /// The type or the public fields in the private list are not those of the public key.
    PublicDiffers,
    /// The bytes after the comment are not 1, 2, 3 and so on, up to 254 at most.
    Padding,
    /// Bytes follow the private list.
    Trailing,
    /// A field is truncated or misspelt.
    Wire(WireFault),
    /// An allocation failed.
    NoMemory,
}

impl PrivateFault {
    /// The fault's number, 1 to 12 in the order of the variants.
    pub fn number(self) -> u8
        ensures { result ≡ private_fault_number self }
    {
        match self {
            PrivateFault::Armour => 1,
            PrivateFault::Base64 => 2,
            PrivateFault::Magic => 3,
            PrivateFault::Encrypted => 4,
            PrivateFault::KeyCount => 5,
            PrivateFault::Check => 6,
            PrivateFault::Key(_) => 7,
            PrivateFault::PublicDiffers => 8,
            PrivateFault::Padding => 9,
            PrivateFault::Trailing => 10,
            PrivateFault::Wire(_) => 11,
            PrivateFault::NoMemory => 12,
        }
    }
}

impl fmt::Display for PrivateFault {
    ghost output = { λ fault. Some (private_fault_text fault) };

    fn fmt<W: fmt::Write>(&self, f: &mut fmt::Formatter<W>) -> fmt::Result {
        match self {
            PrivateFault::Armour => f.write_str("private 1 Armour"),
            PrivateFault::Base64 => f.write_str("private 2 Base64"),
            PrivateFault::Magic => f.write_str("private 3 Magic"),
            PrivateFault::Encrypted => f.write_str("private 4 Encrypted"),
            PrivateFault::KeyCount => f.write_str("private 5 KeyCount"),
            PrivateFault::Check => f.write_str("private 6 Check"),
            PrivateFault::Key(fault) => write!(f, "private 7 Key, {fault}"),
            PrivateFault::PublicDiffers => f.write_str("private 8 PublicDiffers"),
            PrivateFault::Padding => f.write_str("private 9 Padding"),
            PrivateFault::Trailing => f.write_str("private 10 Trailing"),
            PrivateFault::Wire(fault) => write!(f, "private 11 Wire, {fault}"),
            PrivateFault::NoMemory => f.write_str("private 12 NoMemory"),
        }
    }
}

impl Error for PrivateFault {}

impl From<WireFault> for PrivateFault {
    ghost from_gives = { λ fault private. private ≡ Wire fault };

    fn from(fault: WireFault) -> PrivateFault {
        PrivateFault::Wire(fault)
    }
}

impl From<KeyFault> for PrivateFault {
    ghost from_gives = { λ fault private. private ≡ Key fault };

    fn from(fault: KeyFault) -> PrivateFault {
        PrivateFault::Key(fault)
    }
}

impl From<AllocError> for PrivateFault {
    ghost from_gives = { λ error private. private ≡ NoMemory };

    fn from(_error: AllocError) -> PrivateFault {
        PrivateFault::NoMemory
    }
}
