//! The place after a field of a list, or why the field is refused.

ghost use Rattle.std.specs.Prelude.{◌≡◌, ◌==◌, ◌-◌, ◌<◌, ◌≤◌};
ghost use Rattle.krl_format.specs.Place.{base_of, within as within_of};
ghost use Rattle.krl_format.specs.Place.{bits_judged as bits_judged_of, next_bits as bits_after};
ghost use Rattle.krl_format.specs.Place.{passes_end as passes_end_of};
ghost use Rattle.krl_format.specs.Section.{judge as judged_by, next_item as item_after};
ghost use Rattle.krl_format.specs.Section.{next_serial as serial_after};
ghost use Rattle.krl_format.specs.Section.{next_subsection as subsection_after};
ghost use Rattle.krl_format.specs.Section.{section_of_type as section_of};
ghost use Rattle.krl_format.specs.Section.{subsection_of_type as subsection_of};
ghost use Rattle.krl_types.specs.Item.{item_size};
ghost use Rattle.krl_types.specs.declared.krl_fault.KrlFault.TheVariants as faults;
ghost use Rattle.krl_format.specs.declared.place.Place.TheVariants as places;

use crate::place::{Field, Place};
use crate::section::{SIGNATURE, Section, Subsection};
use krl_types::{ItemKind, KrlFault};

// The place of the first field of a table that is not inside a part.
pub(crate) fn first_field(field: Field) -> Place
    ensures { result ≡ places.Field field 0 0 }
{
    Place::Field {
        field,
        room_before: 0,
        room_after: 0,
    }
}

// The next place if a field is good, and otherwise the fault.
pub(crate) fn judge(good: bool, fault: KrlFault, next: Place) -> Result<Place, KrlFault>
    ensures { result ≡ judged_by good fault next }
{
    if good { Ok(next) } else { Err(fault) }
}

// The place after a length, unless it counts more bytes than are left after it.
pub(crate) fn within(
    room_before: u32,
    size: u32,
    next: Result<Place, KrlFault>,
) -> Result<Place, KrlFault>
    requires { 4 ≤ room_before }
    ensures { result ≡ within_of room_before (λ _. next) size }
{
    if size > room_before - 4 {
        Err(KrlFault::Length)
    } else {
        next
    }
}

// The number of bytes that are left after a length and the bytes that it counts.
pub(crate) fn rest(room_before: u32, size: u32) -> u32
    ensures { result ≡ room_before - 4 - size }
{
    room_before.saturating_sub(4).saturating_sub(size)
}

// The place of the next subsection, or of the next section if no bytes are left.
pub(crate) fn next_subsection(room_before: u32) -> Place
    ensures { result ≡ subsection_after room_before }
{
    if room_before == 0 {
        Place::SectionType { signed: false }
    } else {
        Place::SubsectionType { room_before }
    }
}

// The place of the next item of a list, or the place after the list if no bytes are left.
pub(crate) fn next_item(kind: ItemKind, room_before: u32, room_after: u32) -> Place
    ensures { result ≡ item_after kind room_before room_after }
{
    if room_before == 0 {
        next_subsection(room_after)
    } else {
        Place::ItemLength {
            kind,
            room_before,
            room_after,
        }
    }
}

/// The place of the next serial number, or the place after the subsection if no bytes are left.
pub fn next_serial(room_before: u32, room_after: u32) -> Place
    ensures { result ≡ serial_after room_before room_after }
{
    if room_before == 0 {
        next_subsection(room_after)
    } else {
        Place::Serial {
            room_before,
            room_after,
        }
    }
}

/// The place of the next byte of a bitmap, or the place after the subsection if none is left.
pub fn next_bits(offset: u64, size: u32, room_before: u32, room_after: u32) -> Place
    ensures { result ≡ bits_after offset size room_before room_after }
{
    if room_before == 0 {
        next_subsection(room_after)
    } else {
        Place::Byte {
            offset,
            size,
            room_before,
            room_after,
        }
    }
}

// The place after the type byte of a section. Only a signature may follow a signature.
pub(crate) fn section_of_type(signed: bool, type_byte: u8) -> Result<Place, KrlFault>
    ensures { result ≡ section_of signed type_byte }
{
    if type_byte == SIGNATURE {
        return Ok(first_field(Field::SignatureKey));
    }
    if signed {
        return Err(KrlFault::AfterSignature);
    }
    match Section::of_type(type_byte) {
        Some(section) => Ok(Place::SectionLength { section }),
        None => Err(KrlFault::UnknownSection),
    }
}

// The place after the type byte of a subsection.
pub(crate) fn subsection_of_type(room_before: u32, type_byte: u8) -> Result<Place, KrlFault>
    ensures { result ≡ subsection_of room_before type_byte }
{
    match Subsection::of_type(type_byte) {
        Some(subsection) => Ok(Place::SubsectionLength {
            subsection,
            room_before,
        }),
        None => Err(KrlFault::UnknownCertSection),
    }
}

// The place after the length of an item.
pub(crate) fn after_item_length(
    kind: ItemKind,
    room_before: u32,
    room_after: u32,
    size: u32,
) -> Result<Place, KrlFault>
    requires { 4 ≤ room_before }
    ensures { result ≡ within_of room_before (λ size. judged_by (size == item_size kind size)
        faults.HashLength (places.Item kind size (room_before - 4 - size) room_after)) size }
{
    let next = Place::Item {
        kind,
        size,
        room_before: rest(room_before, size),
        room_after,
    };
    within(
        room_before,
        size,
        judge(size == kind.size(size), KrlFault::HashLength, next),
    )
}

// Judges a byte of a bitmap. The bitmap has `room_before` of its `size` bytes left, with this one.
#[inline(always)]
pub(crate) fn bits_judged(
    offset: u64,
    size: u32,
    room_before: u32,
    room_after: u32,
    byte: u8,
) -> Result<Place, KrlFault>
    ensures { result ≡ bits_judged_of offset size room_before room_after byte }
{
    if room_before == size && byte >= 128 {
        return Err(KrlFault::BitmapNegative);
    }
    if passes_end(offset, room_before, byte) {
        return Err(KrlFault::BitmapWraps);
    }
    Ok(next_bits(offset, size, room_before.saturating_sub(1), room_after))
}

// Whether a set bit of the byte is the bit of a number past 2^64-1. The byte is the first of the
// last `room_before` bytes of a bitmap.
#[inline(always)]
pub(crate) fn passes_end(offset: u64, room_before: u32, byte: u8) -> bool
    ensures { result ≡ passes_end_of (base_of offset room_before) byte }
{
    if byte == 0 {
        return false;
    }
    let highest = 8 * u64::from(room_before.saturating_sub(1))
        + u64::from(7 - byte.leading_zeros());
    highest > u64::MAX - offset
}
