//! The pass over the sections of a list that checks the names by which they revoke certificates.

ghost use Rattle.std.specs.Prelude.{◌≡◌, ◌↔◌, ◌<◌, ◌≤◌, ◌^◌, ◌++◌, List, ℕ, IsTrue, MatchOption};
ghost use Rattle.std.specs.Prelude.{length};
ghost use Rattle.ssh_wire.specs.Rows.{BeginsWithPart};
ghost use Rattle.ssh_wire.specs.Wire.{string};
ghost use Rattle.krl_format.specs.Field.{part_of};
ghost use Rattle.krl_format.specs.Krl.{Certificates, SpelledSection, Spells, SpellsSection};
ghost use Rattle.krl_format.specs.Krl.{SpellsCertificates, Subsection};
ghost use Rattle.krl_format.specs.declared.header.Header.{Header as HeaderOf};
ghost use Rattle.openssh_keys.specs.Judgement.{judgement_of};
ghost use Rattle.openssh_keys.specs.declared.judgement.Judgement.TheVariants.{Accepted};
ghost use Rattle.krl_openssh.specs.Authority.{IsKeyOrAll};
ghost use Rattle.krl_openssh.specs.Comparable.{AreFine, IsFine, IsIncomparable, IsJudged};

use crate::key_ids::key_ids_are_whole;
use crate::strings::{skips_string, take_string};
use krl_format::{Field, FieldPart, Place, Section};
use openssh_keys::{Judgement, judge};
use ssh_key::laws::read_where_spelled;
use ssh_key::{PublicKey, read_key};
use ssh_wire::Cursor;

/// Why a certificate cannot be looked for in a list by comparing bytes.
#[derive(Clone, Copy, PartialEq, Eq)]
pub enum Incomparable {
    /// A certificate authority is neither empty, which means all authorities, nor a key in its one
    /// spelling that OpenSSH accepts.
    Authority,
    /// A key ID has a zero byte. OpenSSH reads another key ID, or refuses the list.
    KeyId,
}

/// Returns why names of a list cannot be compared with those of certificates, if so: first for its
/// certificate authorities, and then for its key IDs. The list must be one that can be read; for
/// other bytes nothing is promised. Does not allocate.
pub fn first_incomparable(list: &[u8]) -> Option<Incomparable>
    ensures { (header : HeaderOf) (sections : List SpelledSection)
        → Spells list.now header sections → IsIncomparable sections result }
{
    if !are_fine(Incomparable::Authority, list) {
        Some(Incomparable::Authority)
    } else if !are_fine(Incomparable::KeyId, list) {
        Some(Incomparable::KeyId)
    } else {
        None
    }
}

// Whether no section of a list is incomparable for this reason.
fn are_fine(why: Incomparable, list: &[u8]) -> bool
    ensures { (header : HeaderOf) (sections : List SpelledSection)
        → Spells list.now header sections → IsTrue result ↔ AreFine why sections }
{
    let Some(sections) = past_header(list) else {
        return false;
    };
    let mut left = Cursor::new(sections);
    while !left.at_end() {
        if !section_is_fine(why, &mut left) {
            return false;
        }
    }
    true
}

// Whether an authority is a key in its one spelling that OpenSSH accepts, or empty.
fn is_key_or_all(authority: &[u8]) -> bool
    ensures { IsTrue result ↔ IsKeyOrAll authority.now }
{
    read_where_spelled();
    if authority.is_empty() {
        return true;
    }
    match read_key(authority) {
        Ok(key) => is_accepted(&key),
        Err(_) => false,
    }
}

// Whether OpenSSH accepts a key.
fn is_accepted(key: &PublicKey) -> bool
    ensures { IsTrue result ↔ (judgement_of key.now ≡ Accepted) }
{
    matches!(judge(key), Judgement::Accepted)
}

// The bytes after the header, whose fields are skipped one after the other.
fn past_header(list: &[u8]) -> Option<&[u8]>
    ensures { (header : HeaderOf) (sections : List SpelledSection)
        (spells : Spells list.now header sections)
        → MatchOption result ⊥ (λ rest. rest.now ≡ spells.body) }
{
    let mut left = Cursor::new(list);
    let mut at = Some(Field::Magic);
    while let Some(field) = at {
        let (_, part, next) = field.row();
        if !skips_part(part, &mut left) {
            return None;
        }
        at = next;
    }
    Some(left.rest())
}

// Skips the part at the front, if there is one.
fn skips_part(part: FieldPart, left: &mut Cursor) -> bool
    ensures { (value rest : List ℕ) → BeginsWithPart (part_of part) left.old value rest
        → IsTrue result × (left.new ≡ rest) }
{
    match part {
        FieldPart::Number(size) => skips_bytes(size as usize, left),
        FieldPart::Text => skips_string(left),
    }
}

// Skips this many bytes, if there are as many.
fn skips_bytes(count: usize, left: &mut Cursor) -> bool
    ensures { (bytes rest : List ℕ) → left.old ≡ bytes ++ rest → length bytes ≡ count
        → IsTrue result × (left.new ≡ rest) }
{
    let bytes = left.rest();
    if bytes.len() < count {
        return false;
    }
    *left = Cursor::new(&bytes[count..]);
    true
}

// Skips a section, and returns whether it is not incomparable for this reason.
fn section_is_fine(why: Incomparable, left: &mut Cursor) -> bool
    ensures goes_on { IsTrue result → length left.new < length left.old }
    ensures judged { (section : SpelledSection) (first rest : List ℕ)
        → SpellsSection first section → left.old ≡ first ++ rest
        → IsJudged (IsFine why section) result left.new rest }
{
    let bytes = left.rest();
    let Some((size, next)) = (Place::SectionType { signed: false }).passes(bytes) else {
        return false;
    };
    *left = Cursor::new(&bytes[size..]);
    let Some(content) = take_string(left) else {
        return false;
    };
    match next {
        Place::SectionLength { section } => match section {
            Section::Certificates => content_is_fine(why, content),
            Section::Keys | Section::Sha1s | Section::Sha256s | Section::Extension => true,
        },
        // The key of a signature comes before the signature.
        Place::Field { .. } => skips_string(left),
        Place::Content { .. }
        | Place::SectionType { .. }
        | Place::SubsectionType { .. }
        | Place::SubsectionLength { .. }
        | Place::ItemLength { .. }
        | Place::Item { .. }
        | Place::Serial { .. }
        | Place::RangeMin { .. }
        | Place::RangeMax { .. }
        | Place::Offset { .. }
        | Place::BitmapSize { .. }
        | Place::Byte { .. } => false,
    }
}

// Whether the content of a section of certificates is not incomparable for this reason.
fn content_is_fine(why: Incomparable, content: &[u8]) -> bool
    ensures { (authority : List ℕ) (subsections : List Subsection)
        → SpellsCertificates content.now authority subsections → length content.now < 2 ^ 32
        → IsTrue result ↔ IsFine why (Certificates authority subsections) }
{
    match why {
        Incomparable::Authority => begins_with_key(content),
        Incomparable::KeyId => key_ids_are_whole(content),
    }
}

// Whether the content of a section of certificates begins with a key or with an empty authority.
fn begins_with_key(content: &[u8]) -> bool
    ensures { (authority rest : List ℕ) → content.now ≡ string authority ++ rest
        → length authority < 2 ^ 32 → IsTrue result ↔ IsKeyOrAll authority }
{
    match take_string(&mut Cursor::new(content)) {
        Some(authority) => is_key_or_all(authority),
        None => false,
    }
}
