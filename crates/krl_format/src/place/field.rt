//! The fields of the tables in a list, and the place after each.

ghost use Rattle.std.specs.Prelude.{◌≡◌, ◌≤◌, ◌∷◌, [], IfSome, length};
ghost use Rattle.ssh_wire.specs.Wire.{number_of};
ghost use Rattle.krl_format.specs.Field.{part_of, row_of};
ghost use Rattle.krl_format.specs.Front.{HasRoom};
ghost use Rattle.krl_format.specs.Place.{length_judged, part_size, place_after, room_of};
ghost use Rattle.krl_format.specs.Place.{row_expected};

use crate::header::MAGIC_NUMBER;
use crate::judging::{judge, next_subsection, rest, within};
use crate::place::Place;
use krl_types::KrlFault;
use ssh_wire::{byte_of, u32_of, u64_of};

/// A table of fields. The last two are inside a part that has a length: an extension fills its
/// part, and subsections follow the fields of a section of certificates.
#[derive(Clone, Copy)]
pub enum Table {
    Header,
    Signature,
    Certificates,
    Extension,
}

/// A field of a table.
#[derive(Clone, Copy)]
pub enum Field {
    Magic,
    FormatVersion,
    Version,
    Date,
    Flags,
    Reserved,
    Comment,
    SignatureKey,
    SignatureBytes,
    Authority,
    CertificatesReserved,
    ExtensionName,
    Critical,
    ExtensionContents,
}

/// A field is a number of this many bytes, or a string.
#[derive(Clone, Copy)]
pub enum FieldPart {
    Number(u32),
    Text,
}

impl FieldPart {
    // The size in bytes of the number, or of the string's length.
    #[inline(always)]
    fn size(self) -> u32
        ensures { result ≡ part_size (part_of self) }
    {
        match self {
            FieldPart::Number(size) => size,
            FieldPart::Text => 4,
        }
    }
}

impl Field {
    /// The row of the field: its table, its part, and the next field of the table.
    #[inline(always)]
    pub fn row(self) -> (Table, FieldPart, Option<Field>)
        ensures table { result.0 ≡ (row_of self).table }
        ensures part { part_of result.1 ≡ (row_of self).row.part }
        ensures next { result.2 ≡ (row_of self).next }
    {
        use FieldPart::{Number, Text};
        use Table::{Certificates, Extension, Header, Signature};
        match self {
            Field::Magic => (Header, Number(8), Some(Field::FormatVersion)),
            Field::FormatVersion => (Header, Number(4), Some(Field::Version)),
            Field::Version => (Header, Number(8), Some(Field::Date)),
            Field::Date => (Header, Number(8), Some(Field::Flags)),
            Field::Flags => (Header, Number(8), Some(Field::Reserved)),
            Field::Reserved => (Header, Text, Some(Field::Comment)),
            Field::Comment => (Header, Text, None),
            Field::SignatureKey => (Signature, Text, Some(Field::SignatureBytes)),
            Field::SignatureBytes => (Signature, Text, None),
            Field::Authority => (Certificates, Text, Some(Field::CertificatesReserved)),
            Field::CertificatesReserved => (Certificates, Text, None),
            Field::ExtensionName => (Extension, Text, Some(Field::Critical)),
            Field::Critical => (Extension, Number(1), Some(Field::ExtensionContents)),
            Field::ExtensionContents => (Extension, Text, None),
        }
    }

    // Returns the size of the expected number or length, and the bytes that are left for it.
    #[inline(always)]
    pub(super) fn size_and_room(self, room_before: u32) -> (u32, Option<u32>)
        ensures size { result.0 ≡ part_size (row_of self).row.part }
        ensures room { result.1 ≡ room_of (row_of self).table room_before }
    {
        let (table, part, _) = self.row();
        match table {
            Table::Certificates | Table::Extension => (part.size(), Some(room_before)),
            Table::Header | Table::Signature => (part.size(), None),
        }
    }

    // The place after the field.
    #[inline(always)]
    pub(super) fn place_after(self, room_before: u32, room_after: u32) -> Place
        ensures { result ≡ place_after self room_before room_after }
    {
        let (table, _, next) = self.row();
        if let Some(field) = next {
            return Place::Field {
                field,
                room_before,
                room_after,
            };
        }
        match table {
            Table::Header => Place::SectionType { signed: false },
            Table::Signature => Place::SectionType { signed: true },
            Table::Certificates => next_subsection(room_before),
            Table::Extension => next_subsection(room_after),
        }
    }

    // Judges a number, or the length of a string.
    #[inline(always)]
    pub(super) fn judge_part(
        self,
        room_before: u32,
        room_after: u32,
        field: &[u8],
    ) -> Result<Place, KrlFault>
        requires whole { length field.now ≡ (row_expected self room_before room_after).size }
        requires room { HasRoom (row_expected self room_before room_after) }
        ensures { result ≡ (row_expected self room_before room_after).judged field.now }
    {
        match self.row().1 {
            FieldPart::Number(size) => match self.fault(field) {
                None => Ok(self.place_after(room_before.saturating_sub(size), room_after)),
                Some(fault) => Err(fault),
            },
            FieldPart::Text => self.judge_length(room_before, room_after, u32_of(field)),
        }
    }

    // The fault of a number, if it has one.
    #[inline(always)]
    fn fault(self, number: &[u8]) -> Option<KrlFault>
        requires { length number.now ≡ part_size (row_of self).row.part }
        ensures { result ≡ (row_of self).row.judged [] (number_of number.now ∷ []) }
    {
        match self {
            Field::Magic if u64_of(number) != MAGIC_NUMBER => Some(KrlFault::Magic),
            Field::FormatVersion if u32_of(number) != 1 => Some(KrlFault::FormatVersion),
            Field::Critical if byte_of(number) != 0 => Some(KrlFault::CriticalExtension),
            _ => None,
        }
    }

    // Judges the length of a string. The last string of an extension fills it.
    #[inline(always)]
    fn judge_length(self, room_before: u32, room_after: u32, size: u32) -> Result<Place, KrlFault>
        requires { IfSome (room_of (row_of self).table room_before) (λ room. 4 ≤ room) }
        ensures { result ≡ length_judged self (row_of self).table (row_of self).next
            room_before room_after size }
    {
        let (table, _, next) = self.row();
        let (field, inner) = (self, rest(room_before, size));
        match (table, next) {
            (Table::Extension, None) => judge(
                size == room_before - 4,
                KrlFault::Length,
                Place::Content {
                    field,
                    size,
                    room_before: 0,
                    room_after,
                },
            ),
            (Table::Certificates | Table::Extension, _) => within(
                room_before,
                size,
                Ok(Place::Content {
                    field,
                    size,
                    room_before: inner,
                    room_after,
                }),
            ),
            (Table::Header | Table::Signature, _) => Ok(Place::Content {
                field,
                size,
                room_before,
                room_after,
            }),
        }
    }
}
