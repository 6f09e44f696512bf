//! The fields of a list for which OpenSSH refuses it, or reads other names.

ghost use Rattle.std.specs.Prelude.{◌≡◌, length, Ok};
ghost use Rattle.krl_format.specs.Place.{expected};
ghost use Rattle.krl_openssh.specs.Difference.{authority_difference, bits_difference};
ghost use Rattle.krl_openssh.specs.Difference.{comment_difference, difference_at, difference_words};
ghost use Rattle.krl_openssh.specs.Difference.{found_if, has_zero, is_long, item_difference};
ghost use Rattle.krl_openssh.specs.Difference.{judgement_difference, key_difference};
ghost use Rattle.krl_openssh.specs.Difference.{kind_difference, names_zero};
ghost use Rattle.krl_openssh.specs.Difference.{section_difference, subsection_difference};
ghost use Rattle.krl_openssh.specs.Difference.{table_difference, text_difference};

use krl_format::{Field, Place, Section, Subsection, Table};
use krl_types::ItemKind;
use openssh_keys::{Judgement, judge};
use ssh_key::{Kind, PublicKey, read_key};
use ssh_wire::{byte_of, u64_of};

/// Why OpenSSH refuses a list, or reads other names from it.
#[derive(Clone, Copy, PartialEq, Eq)]
pub enum Difference {
    /// The comment has a zero byte before its last byte.
    Comment,
    /// A key ID has a zero byte. OpenSSH drops one at the end, and refuses any other.
    KeyId,
    /// The list names serial number 0.
    SerialZero,
    /// A bitmap has more than 2,048 bytes, not counting a first byte that is zero.
    LongBitmap,
    /// A certificate authority is not a key in its one spelling.
    Authority,
    /// A certificate authority is an RSA key of fewer than 1,024 bits, or an RSA or DSA key with a
    /// number of more than 16,384.
    KeySize,
    /// A certificate authority is a key of ECDSA whose point is not on its curve, or has a
    /// coordinate that OpenSSH refuses.
    Point,
    /// A certificate authority is a DSA key, which OpenSSH 10 does not read.
    Dsa,
    /// There is an extension.
    Extension,
    /// There is a signature.
    Signature,
}

impl Difference {
    /// The words for people.
    pub fn words(self) -> &'static str
        ensures { result.now ≡ difference_words self }
    {
        match self {
            Difference::Comment => "its comment has a zero byte",
            Difference::KeyId => "a key ID has a zero byte",
            Difference::SerialZero => "it names serial number 0",
            Difference::LongBitmap => "a bitmap has more than 2,048 bytes",
            Difference::Authority => "a CA is no key, or a key in another spelling",
            Difference::KeySize => "the key of a CA is too short or too long",
            Difference::Point => "the key of a CA has an invalid point",
            Difference::Dsa => "the key of a CA is DSA, which OpenSSH 10 does not read",
            Difference::Extension => "it has an extension",
            Difference::Signature => "it has a signature",
        }
    }
}

/// Returns why OpenSSH does not read the whole field at a place as this project does, if so.
pub(crate) fn difference_at(place: Place, field: &[u8]) -> Option<Difference>
    requires { length field.now ≡ (expected place).size }
    ensures { result ≡ difference_at place field.now }
{
    match place {
        Place::Field { field: row, .. } => table_difference(row.row().0),
        Place::Content { field: row, .. } => text_difference(row, field),
        Place::SectionLength { section } => section_difference(section),
        Place::SubsectionLength { subsection, .. } => subsection_difference(subsection),
        Place::Item { kind, .. } => item_difference(kind, field),
        Place::Serial { .. } | Place::RangeMin { .. } => {
            found_if(u64_of(field) == 0, Difference::SerialZero)
        }
        Place::Byte {
            offset,
            size,
            room_before,
            ..
        } => bits_difference(offset, size, room_before, byte_of(field)),
        Place::SectionType { .. }
        | Place::SubsectionType { .. }
        | Place::ItemLength { .. }
        | Place::RangeMax { .. }
        | Place::Offset { .. }
        | Place::BitmapSize { .. } => None,
    }
}

// The difference of a section of this kind.
fn section_difference(section: Section) -> Option<Difference>
    ensures { result ≡ section_difference section }
{
    match section {
        Section::Extension => Some(Difference::Extension),
        Section::Certificates | Section::Keys | Section::Sha1s | Section::Sha256s => None,
    }
}

// The difference of a subsection of this kind.
fn subsection_difference(subsection: Subsection) -> Option<Difference>
    ensures { result ≡ subsection_difference subsection }
{
    match subsection {
        Subsection::Extension => Some(Difference::Extension),
        Subsection::Serials | Subsection::Range | Subsection::Bitmap | Subsection::Ids => None,
    }
}

// The difference, if it was found.
fn found_if(found: bool, difference: Difference) -> Option<Difference>
    ensures { result ≡ found_if found difference }
{
    if found { Some(difference) } else { None }
}

// The difference of a field of a table.
fn table_difference(table: Table) -> Option<Difference>
    ensures { result ≡ table_difference table }
{
    match table {
        Table::Header | Table::Certificates => None,
        Table::Signature => Some(Difference::Signature),
        Table::Extension => Some(Difference::Extension),
    }
}

// The difference of a string of a table.
fn text_difference(row: Field, text: &[u8]) -> Option<Difference>
    ensures { result ≡ text_difference row text.now }
{
    match row {
        Field::Comment => comment_difference(text),
        Field::Authority => authority_difference(text),
        Field::Magic
        | Field::FormatVersion
        | Field::Version
        | Field::Date
        | Field::Flags
        | Field::Reserved
        | Field::SignatureKey
        | Field::SignatureBytes
        | Field::CertificatesReserved
        | Field::ExtensionName
        | Field::Critical
        | Field::ExtensionContents => None,
    }
}

// The difference of a comment. OpenSSH drops a zero byte at the end.
fn comment_difference(comment: &[u8]) -> Option<Difference>
    ensures { result ≡ comment_difference comment.now }
{
    let front = &comment[..comment.len().saturating_sub(1)];
    found_if(has_zero(front), Difference::Comment)
}

/// Returns true if a text has a zero byte.
pub(crate) fn has_zero(text: &[u8]) -> bool
    ensures { result ≡ has_zero text.now }
{
    text.contains(&0)
}

// The difference of a string of a list.
fn item_difference(kind: ItemKind, text: &[u8]) -> Option<Difference>
    ensures { result ≡ item_difference kind text.now }
{
    match kind {
        ItemKind::Id => found_if(has_zero(text), Difference::KeyId),
        ItemKind::Key | ItemKind::Sha1 | ItemKind::Sha256 => None,
    }
}

// The difference of an authority. It may be empty, for all authorities, or a key that OpenSSH
// accepts.
fn authority_difference(authority: &[u8]) -> Option<Difference>
    ensures { result ≡ authority_difference authority.now }
{
    if authority.is_empty() {
        return None;
    }
    match read_key(authority) {
        Ok(key) => key_difference(&key),
        Err(_) => Some(Difference::Authority),
    }
}

// The difference of a key: by OpenSSH's judgement, and otherwise by its kind.
fn key_difference(key: &PublicKey) -> Option<Difference>
    ensures { result ≡ key_difference (Ok key.now) }
{
    match judgement_difference(judge(key)) {
        Some(difference) => Some(difference),
        None => kind_difference(key.kind()),
    }
}

// The difference of a key of this kind.
fn kind_difference(kind: Kind) -> Option<Difference>
    ensures { result ≡ kind_difference kind }
{
    match kind {
        Kind::Dsa => Some(Difference::Dsa),
        Kind::Rsa
        | Kind::Ecdsa256
        | Kind::Ecdsa384
        | Kind::Ecdsa521
        | Kind::Ed25519
        | Kind::EcdsaSk
        | Kind::Ed25519Sk => None,
    }
}

// The difference of a key by OpenSSH's judgement.
fn judgement_difference(judgement: Judgement) -> Option<Difference>
    ensures { result ≡ judgement_difference judgement }
{
    match judgement {
        Judgement::Accepted => None,
        Judgement::Short | Judgement::Long => Some(Difference::KeySize),
        Judgement::Point => Some(Difference::Point),
    }
}

// The difference of a byte of a bitmap; `left` of its `size` bytes remain, including this one.
fn bits_difference(offset: u64, size: u32, left: u32, byte: u8) -> Option<Difference>
    ensures { result ≡ bits_difference offset size left byte }
{
    if is_long(size, left, byte) {
        return Some(Difference::LongBitmap);
    }
    found_if(names_zero(offset, left, byte), Difference::SerialZero)
}

// Returns true if this is the first byte of a bitmap that is too long for OpenSSH.
fn is_long(size: u32, left: u32, byte: u8) -> bool
    ensures { result ≡ is_long size left byte }
{
    left == size && (size > 2_049 || (size == 2_049 && byte != 0))
}

// Returns true if the lowest bit of the byte is set and represents serial number 0.
fn names_zero(offset: u64, left: u32, byte: u8) -> bool
    ensures { result ≡ names_zero offset left byte }
{
    offset == 0 && left == 1 && byte % 2 == 1
}
