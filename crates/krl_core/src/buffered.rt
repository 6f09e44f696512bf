//! Fields that are read in the reader's buffer, without a call of the reader.

ghost use Rattle.std.specs.Prelude.{◌≡◌, ◌+◌, ◌*◌, ◌%◌, ◌^◌, ◌≤◌, ◌<◌, IsTrue, false, length};
ghost use Rattle.krl_core.specs.Buffered.{AreBitsOutOfScope, ReadsNext, ReadsSome, MaySkip};
ghost use Rattle.krl_entries.specs.Scope.{AreOutOfScope};
ghost use Rattle.krl_core.specs.FieldStore.{InStep};

use crate::field_store::FieldStore;
use krl_entries::Store;
use krl_format::{Field, Place, next_bits, next_serial};
use std::alloc::AllocError;

// At most this many bytes of serial numbers or of a bitmap are skipped together.
const SKIPPED_TOGETHER: usize = 512;

/// Reads whole fields at the front of some bytes until one does not pass its judgement. Returns
/// how many bytes were read. If an allocation fails, the field where it failed is counted too.
pub(crate) fn read_buffered<T: Store>(
    place: &mut Place,
    stored: &mut FieldStore<T>,
    bytes: &[u8],
) -> (usize, Result<(), AllocError>)
    requires { InStep place.old stored.old.bitmap }
    ensures { ReadsSome bytes.now result.0 result.1 place.old stored.old place.new stored.new }
{
    let mut at = 0;
    'fields: while at < bytes.len() {
        let (count, done) = read_front(place, stored, &bytes[at..]);
        at += count;
        if done.is_err() || count == 0 {
            return (at, done);
        }
    }
    (at, Ok(()))
}

// Skips fields that name nothing in scope together, and otherwise reads one field after the other.
fn read_front<T: Store>(
    place: &mut Place,
    stored: &mut FieldStore<T>,
    bytes: &[u8],
) -> (usize, Result<(), AllocError>)
    requires some { 0 < length bytes.now }
    requires in_step { InStep place.old stored.old.bitmap }
    ensures { ReadsSome bytes.now result.0 result.1 place.old stored.old place.new stored.new }
{
    let (count, done) = skip_out_of_scope(place, stored, bytes);
    if count > 0 {
        return (count, done);
    }
    read_each(place, stored, bytes)
}

// Skips fields of one kind together if they name nothing in scope: serial numbers, or bytes of a
// bitmap.
fn skip_out_of_scope<T: Store>(
    place: &mut Place,
    stored: &mut FieldStore<T>,
    bytes: &[u8],
) -> (usize, Result<(), AllocError>)
    requires some { 0 < length bytes.now }
    requires in_step { InStep place.old stored.old.bitmap }
    ensures { ReadsSome bytes.now result.0 result.1 place.old stored.old place.new stored.new }
{
    match *place {
        Place::Serial {
            room_before,
            room_after,
        } => {
            let count = serials_out_of_scope(stored, room_before, bytes);
            if count == 0 {
                return (0, Ok(()));
            }
            *place = next_serial(room_before - count as u32, room_after);
            (count, Ok(()))
        }
        Place::Byte {
            offset,
            size,
            room_before,
            room_after,
        } => {
            let count = bits_out_of_scope(stored, offset, size, room_before, bytes);
            if count == 0 {
                return (0, Ok(()));
            }
            let done = stored.skip(count as u32);
            *place = next_bits(offset, size, room_before - count as u32, room_after);
            (count, done)
        }
        _ => (0, Ok(())),
    }
}

// How many bytes at the front are serial numbers that are not in scope. The subsection has `left`
// bytes of serial numbers left.
fn serials_out_of_scope<T: Store>(stored: &FieldStore<T>, left: u32, bytes: &[u8]) -> usize
    ensures within { result ≤ length bytes.now }
    ensures left { result ≤ left }
    ensures whole { result % 8 ≡ 0 }
    ensures out_of_scope { AreOutOfScope stored.now.scope stored.now.authority bytes.now result }
{
    let count = bytes.len().min(left as usize).min(SKIPPED_TOGETHER);
    stored.out_of_scope(&bytes[..count])
}

// How many bytes at the front of a bitmap may be skipped together: none of their serial numbers is
// in scope, and none of the bytes is refused. The bitmap has `left` of its `size` bytes left.
fn bits_out_of_scope<T: Store>(
    stored: &FieldStore<T>,
    offset: u64,
    size: u32,
    left: u32,
    bytes: &[u8],
) -> usize
    requires there { 0 < length bytes.now }
    ensures { 0 < result → MaySkip stored.now offset size left bytes.now result }
{
    if left > size || 8 * u64::from(left) > u64::MAX - offset || is_negative(size, left, bytes[0]) {
        return 0;
    }
    let mut count = bytes.len().min(left as usize).min(SKIPPED_TOGETHER);
    'halves: while count > 0 {
        if is_out_of_scope(stored, offset, left, count as u32) {
            return count;
        }
        count /= 8;
    }
    0
}

// Whether a byte is the first of a bitmap and shows that its number is negative.
fn is_negative(size: u32, left: u32, byte: u8) -> bool
    ensures { result ≡ false → left ≡ size → byte < 128 }
{
    left == size && byte >= 128
}

// Whether no serial number of the first `count` of the last `left` bytes of a bitmap is in scope.
fn is_out_of_scope<T: Store>(stored: &FieldStore<T>, offset: u64, left: u32, count: u32) -> bool
    requires some { 0 < count }
    requires within { count ≤ left }
    requires fits { offset + 8 * left < 2 ^ 64 }
    ensures { IsTrue result → AreBitsOutOfScope stored.now offset left count }
{
    let lo = offset + 8 * u64::from(left - count);
    let hi = offset + 8 * u64::from(left) - 1;
    !stored.may_have_in_scope(lo, hi)
}

// Reads one field after the other, until many may be skipped together. A field without bytes is
// read only after one that has some.
fn read_each<T: Store>(
    place: &mut Place,
    stored: &mut FieldStore<T>,
    bytes: &[u8],
) -> (usize, Result<(), AllocError>)
    requires { InStep place.old stored.old.bitmap }
    ensures { ReadsSome bytes.now result.0 result.1 place.old stored.old place.new stored.new }
{
    let mut at = 0;
    'fields: while at < bytes.len() {
        let Some((size, done)) = read_next(*place, stored, &bytes[at..], at > 0) else {
            break;
        };
        at += size;
        match done {
            Ok(next) => *place = next,
            Err(error) => return (at, Err(error)),
        }
        if is_one_of_many(*place) {
            break;
        }
    }
    (at, Ok(()))
}

// Reads the field at a place of one kind, by an arm for each of these places. An arm names its
// place, so that the compiler generates separate code for each field and does not test the place
// again.
macro_rules! read_named {
    ($place:ident, $stored:ident, $bytes:ident, $empty:ident:
        $($kind:ident { $($part:ident $(: $type:ident::$variant:ident)?),* }),*;
        $($rest:ident),*) => {
        match $place {
            $(Place::$kind { $($part $(: $type::$variant)?),* } => read_whole(
                Place::$kind { $($part $(: $type::$variant)?),* },
                $stored,
                $bytes,
                $empty,
            ),)*
            $(Place::$rest { .. } => read_whole($place, $stored, $bytes, $empty),)*
        }
    };
}

// Reads the expected field.
#[inline(always)]
fn read_next<T: Store>(
    place: Place,
    stored: &mut FieldStore<T>,
    bytes: &[u8],
    empty: bool,
) -> Option<(usize, Result<Place, AllocError>)>
    requires { InStep place stored.old.bitmap }
    ensures { ReadsNext bytes.now empty result place stored.old stored.new }
{
    read_named! {
        place, stored, bytes, empty:
        SectionType { signed },
        SectionLength { section },
        SubsectionType { room_before },
        SubsectionLength { subsection, room_before },
        Field { field: Field::Authority, room_before, room_after },
        Content { field: Field::Authority, size, room_before, room_after },
        Field { field: Field::CertificatesReserved, room_before, room_after },
        Content { field: Field::CertificatesReserved, size, room_before, room_after },
        ItemLength { kind, room_before, room_after },
        Item { kind, size, room_before, room_after },
        Serial { room_before, room_after },
        RangeMin { room_after },
        RangeMax { min, room_after },
        Offset { room_before, room_after },
        BitmapSize { offset, room_before, room_after };
        Field, Content, Byte
    }
}

// Reads the expected field if it is whole and passes its judgement.
#[inline(always)]
fn read_whole<T: Store>(
    place: Place,
    stored: &mut FieldStore<T>,
    bytes: &[u8],
    empty: bool,
) -> Option<(usize, Result<Place, AllocError>)>
    requires { InStep place stored.old.bitmap }
    ensures { ReadsNext bytes.now empty result place stored.old stored.new }
{
    let (size, next) = place.passes(bytes)?;
    if size == 0 && !empty {
        return None;
    }
    match stored.store_field(place, &bytes[..size], next) {
        Ok(()) => Some((size, Ok(next))),
        Err(error) => Some((size, Err(error))),
    }
}

// Whether the field at this place may be one of many that are skipped together.
#[inline(always)]
fn is_one_of_many(place: Place) -> bool {
    matches!(place, Place::Serial { .. } | Place::Byte { .. })
}
