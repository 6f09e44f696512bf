//! The sections of a list, and the subsections of a section of certificates: a row for each.

ghost use Rattle.std.specs.Prelude.{◌≡◌};
ghost use Rattle.krl_format.specs.Section.{content_of, section_of, section_row, subsection_of};
ghost use Rattle.krl_format.specs.Section.{subsection_row};

use crate::judging::{judge, next_item, next_serial};
use crate::place::{Field, Place};
use krl_types::{ItemKind, KrlFault};

/// The type byte of a signature. It has no length, and is read as a table of fields.
pub const SIGNATURE: u8 = 4;

/// The type byte of a section of certificates.
pub const CERTIFICATES: u8 = 1;
/// The type byte of a section of keys.
pub const KEYS: u8 = 2;
/// The type byte of a section of SHA-1 hashes.
pub const SHA1S: u8 = 3;
/// The type byte of a section of SHA-256 hashes.
pub const SHA256S: u8 = 5;
/// The type byte of an extension, as a section.
pub const EXTENSION: u8 = 255;

/// The type byte of a subsection of serial numbers.
pub const SERIALS: u8 = 0x20;
/// The type byte of a range of serial numbers.
pub const RANGE: u8 = 0x21;
/// The type byte of a bitmap of serial numbers.
pub const BITMAP: u8 = 0x22;
/// The type byte of a subsection of key IDs.
pub const IDS: u8 = 0x23;
/// The type byte of an extension, as a subsection.
pub const SUBSECTION_EXTENSION: u8 = 0x39;

/// A section that has a length. Its row has the type byte, the lengths that its content may have,
/// and the first place in the content.
#[derive(Clone, Copy)]
pub enum Section {
    Certificates,
    Keys,
    Sha1s,
    Sha256s,
    Extension,
}

/// A subsection of a section of certificates. Its row is like that of a section.
#[derive(Clone, Copy)]
pub enum Subsection {
    Serials,
    Range,
    Bitmap,
    Ids,
    Extension,
}

impl Section {
    // The first place in a content of this length, which may be any.
    #[inline(always)]
    pub(crate) fn first_place(self, size: u32) -> Result<Place, KrlFault>
        ensures { result ≡ content_of (section_row self) size 0 }
    {
        match self {
            Section::Certificates => Ok(Place::Field {
                field: Field::Authority,
                room_before: size,
                room_after: 0,
            }),
            Section::Keys => Ok(next_item(ItemKind::Key, size, 0)),
            Section::Sha1s => Ok(next_item(ItemKind::Sha1, size, 0)),
            Section::Sha256s => Ok(next_item(ItemKind::Sha256, size, 0)),
            Section::Extension => Ok(Place::Field {
                field: Field::ExtensionName,
                room_before: size,
                room_after: 0,
            }),
        }
    }

    // The section of this type, if there is one.
    #[inline(always)]
    pub(crate) fn of_type(type_byte: u8) -> Option<Section>
        ensures { result ≡ section_of type_byte }
    {
        match type_byte {
            CERTIFICATES => Some(Section::Certificates),
            KEYS => Some(Section::Keys),
            SHA1S => Some(Section::Sha1s),
            SHA256S => Some(Section::Sha256s),
            EXTENSION => Some(Section::Extension),
            _ => None,
        }
    }
}

impl Subsection {
    // The first place in a content of this length, or why the length is refused. The section has
    // `room_after` bytes after the content.
    #[inline(always)]
    pub(crate) fn first_place(self, size: u32, room_after: u32) -> Result<Place, KrlFault>
        ensures { result ≡ content_of (subsection_row self) size room_after }
    {
        match self {
            Subsection::Serials => judge(
                size % 8 == 0,
                KrlFault::Length,
                next_serial(size, room_after),
            ),
            Subsection::Range => judge(
                size == 16,
                KrlFault::Length,
                Place::RangeMin { room_after },
            ),
            Subsection::Bitmap => Ok(Place::Offset {
                room_before: size,
                room_after,
            }),
            Subsection::Ids => Ok(next_item(ItemKind::Id, size, room_after)),
            Subsection::Extension => Ok(Place::Field {
                field: Field::ExtensionName,
                room_before: size,
                room_after,
            }),
        }
    }

    // The subsection of this type, if there is one.
    #[inline(always)]
    pub(crate) fn of_type(type_byte: u8) -> Option<Subsection>
        ensures { result ≡ subsection_of type_byte }
    {
        match type_byte {
            SERIALS => Some(Subsection::Serials),
            RANGE => Some(Subsection::Range),
            BITMAP => Some(Subsection::Bitmap),
            IDS => Some(Subsection::Ids),
            SUBSECTION_EXTENSION => Some(Subsection::Extension),
            _ => None,
        }
    }
}
