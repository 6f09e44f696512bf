//! The places in a list where a field can be expected (PROTOCOL.krl).

ghost use Rattle.std.specs.Prelude.{◌≡◌, ◌≢◌, ◌↔◌, ◌++◌, ◌≤◌, IfSome, IsTrue, List, ℕ, None};
ghost use Rattle.std.specs.Prelude.{length, take};
ghost use Rattle.krl_format.specs.Place.{can_end, expected};
ghost use Rattle.krl_format.specs.Front.{HasRoom, Passes, start};
ghost use Rattle.krl_format.specs.declared.place.Place.{Place as PlaceOf};

mod field;

use crate::judging::{
    after_item_length, bits_judged, first_field, judge, next_bits, next_item, next_serial,
    next_subsection, rest, section_of_type, subsection_of_type, within,
};
use crate::section::{Section, Subsection};
pub use field::{Field, FieldPart, Table};
use krl_types::{ItemKind, KrlFault};
use ssh_wire::{byte_of, u32_of, u64_of};

/// The place of a walk in a list: the field that is expected next. A byte of a bitmap is a field.
///
/// `room_before` is the number of bytes before the end of the part around the field. It counts the
/// field, unless the place has the field's `size`. `room_after` is the number of bytes of the
/// section after that end. Both are 0 in the header and in a signature, which are in no part.
#[derive(Clone, Copy)]
pub enum Place {
    /// A number of a table, or the length of a string.
    Field {
        field: Field,
        room_before: u32,
        room_after: u32,
    },
    /// The content of a string of a table.
    Content {
        field: Field,
        size: u32,
        room_before: u32,
        room_after: u32,
    },
    /// The next section, or the end of the list. `signed` is true after a signature.
    SectionType {
        signed: bool,
    },
    /// The length of a section.
    SectionLength {
        section: Section,
    },
    /// The next subsection.
    SubsectionType {
        room_before: u32,
    },
    /// The length of a subsection.
    SubsectionLength {
        subsection: Subsection,
        room_before: u32,
    },
    ItemLength {
        kind: ItemKind,
        room_before: u32,
        room_after: u32,
    },
    Item {
        kind: ItemKind,
        size: u32,
        room_before: u32,
        room_after: u32,
    },
    Serial {
        room_before: u32,
        room_after: u32,
    },
    RangeMin {
        room_after: u32,
    },
    RangeMax {
        min: u64,
        room_after: u32,
    },
    /// The first serial number of a bitmap.
    Offset {
        room_before: u32,
        room_after: u32,
    },
    BitmapSize {
        offset: u64,
        room_before: u32,
        room_after: u32,
    },
    /// One byte of a bitmap, with `room_before` of its `size` bytes left. The highest byte comes
    /// first.
    Byte {
        offset: u64,
        size: u32,
        room_before: u32,
        room_after: u32,
    },
}

impl Place {
    // Returns the size of the expected field, and the bytes that are left for it.
    #[inline(always)]
    fn size_and_room(self) -> (u32, Option<u32>)
        ensures size { result.0 ≡ (expected self).size }
        ensures room { result.1 ≡ (expected self).room }
    {
        match self {
            Place::Field {
                field,
                room_before,
                ..
            } => field.size_and_room(room_before),
            Place::Content { size, .. } => (size, None),
            Place::SectionType { .. } | Place::Byte { .. } => (1, None),
            Place::SectionLength { .. } => (4, None),
            Place::SubsectionType { room_before } => (1, Some(room_before)),
            Place::SubsectionLength { room_before, .. }
            | Place::ItemLength { room_before, .. }
            | Place::BitmapSize { room_before, .. } => (4, Some(room_before)),
            Place::Item { kind, size, .. } => (kind.size(size), None),
            Place::Serial { room_before, .. } | Place::Offset { room_before, .. } => (
                8,
                Some(room_before),
            ),
            Place::RangeMin { .. } | Place::RangeMax { .. } => (8, None),
        }
    }

    /// The size of the expected field in bytes.
    #[inline(always)]
    pub fn size(self) -> u32
        ensures { result ≡ (expected self).size }
    {
        self.size_and_room().0
    }

    /// Whether the part around the field has enough bytes left for it.
    #[inline(always)]
    pub fn has_room(self) -> bool
        ensures { IsTrue result ↔ HasRoom (expected self) }
    {
        match self.size_and_room() {
            (size, Some(room_before)) => room_before >= size,
            (_, None) => true,
        }
    }

    /// The place of the first field of a list.
    pub fn start() -> Place
        ensures { result ≡ start.place }
    {
        first_field(Field::Magic)
    }

    /// Whether the list may end here.
    #[inline(always)]
    pub fn may_end(self) -> bool
        ensures { result ≡ can_end self }
    {
        match self {
            Place::SectionType { .. } => true,
            _ => false,
        }
    }

    /// Judges the whole field: returns the place after it, or why it is refused.
    #[inline(always)]
    pub fn judge_field(self, field: &[u8]) -> Result<Place, KrlFault>
        requires whole { length field.now ≡ (expected self).size }
        requires room { HasRoom (expected self) }
        ensures { result ≡ (expected self).judged field.now }
    {
        match self {
            Place::Field {
                field: expected,
                room_before,
                room_after,
            } => expected.judge_part(room_before, room_after, field),
            Place::Content {
                field: expected,
                room_before,
                room_after,
                ..
            } => Ok(expected.place_after(room_before, room_after)),
            Place::SectionType { signed } => section_of_type(signed, byte_of(field)),
            Place::SectionLength { section } => section.first_place(u32_of(field)),
            Place::SubsectionType { room_before } => subsection_of_type(
                room_before - 1,
                byte_of(field),
            ),
            Place::SubsectionLength {
                subsection,
                room_before,
            } => {
                let size = u32_of(field);
                within(
                    room_before,
                    size,
                    subsection.first_place(size, rest(room_before, size)),
                )
            }
            Place::ItemLength {
                kind,
                room_before,
                room_after,
            } => after_item_length(kind, room_before, room_after, u32_of(field)),
            Place::Item {
                kind,
                room_before,
                room_after,
                ..
            } => Ok(next_item(kind, room_before, room_after)),
            Place::Serial {
                room_before,
                room_after,
            } => Ok(next_serial(room_before - 8, room_after)),
            Place::RangeMin { room_after } => Ok(Place::RangeMax {
                min: u64_of(field),
                room_after,
            }),
            Place::RangeMax { min, room_after } => {
                judge(
                    min <= u64_of(field),
                    KrlFault::RangeReversed,
                    next_subsection(room_after),
                )
            }
            Place::Offset {
                room_before,
                room_after,
            } => Ok(Place::BitmapSize {
                offset: u64_of(field),
                room_before: room_before - 8,
                room_after,
            }),
            Place::BitmapSize {
                offset,
                room_before,
                room_after,
            } => {
                let size = room_before - 4;
                let next = next_bits(offset, size, size, room_after);
                judge(u32_of(field) == size, KrlFault::Length, next)
            }
            Place::Byte {
                offset,
                size,
                room_before,
                room_after,
            } => bits_judged(offset, size, room_before, room_after, byte_of(field)),
        }
    }

    /// The size in bytes of the expected field, and the place after it, if the field is whole at
    /// the front of these bytes and passes its judgement.
    #[inline(always)]
    pub fn passes(self, bytes: &[u8]) -> Option<(usize, Place)>
        ensures within { IfSome result (λ field. field.0 ≤ length bytes.now) }
        ensures passes { IfSome result (λ field. Passes self (take field.0 bytes.now) field.1) }
        ensures found { (field rest : List ℕ) (next : PlaceOf) → Passes self field next
            → bytes.now ≡ field ++ rest → result ≢ None }
    {
        if !self.has_room() {
            return None;
        }
        let size = self.size() as usize;
        if size > bytes.len() {
            return None;
        }
        match self.judge_field(&bytes[..size]) {
            Ok(next) => Some((size, next)),
            Err(_) => None,
        }
    }
}
