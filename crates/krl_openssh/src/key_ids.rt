//! The key IDs of a section of certificates.

ghost use Rattle.std.specs.Prelude.{◌≡◌, ◌↔◌, ◌<◌, ◌^◌, ◌++◌, List, ℕ, IsTrue, length};
ghost use Rattle.std.specs.List.{AllByRecursion};
ghost use Rattle.ssh_wire.specs.Wire.{string, strings};
ghost use Rattle.krl_format.specs.Krl.{SpellsCertificates, SpellsSubsection, Subsection};
ghost use Rattle.krl_openssh.specs.Comparable.{HasWholeIds, IsJudged, IsWholeId};

use crate::difference::has_zero;
use crate::strings::{skips_string, take_string};
use krl_format::IDS;
use ssh_wire::Cursor;

/// Whether no key ID in the content of a section of certificates has a zero byte.
pub(crate) fn key_ids_are_whole(content: &[u8]) -> bool
    ensures { (authority : List ℕ) (subsections : List Subsection)
        → SpellsCertificates content.now authority subsections → length content.now < 2 ^ 32
        → IsTrue result ↔ AllByRecursion HasWholeIds subsections }
{
    let mut left = Cursor::new(content);
    if !skips_string(&mut left) {
        return false;
    }
    if !skips_string(&mut left) {
        return false;
    }
    while !left.at_end() {
        if !subsection_is_whole(&mut left) {
            return false;
        }
    }
    true
}

// Skips a subsection, and returns whether none of its key IDs, if it has any, has a zero byte.
fn subsection_is_whole(left: &mut Cursor) -> bool
    ensures goes_on { IsTrue result → length left.new < length left.old }
    ensures judged { (subsection : Subsection) (first rest : List ℕ)
        → SpellsSubsection first subsection → left.old ≡ first ++ rest
        → IsJudged (HasWholeIds subsection) result left.new rest }
{
    let Ok(type_byte) = left.byte() else {
        return false;
    };
    let Some(content) = take_string(left) else {
        return false;
    };
    match type_byte {
        IDS => texts_are_whole(content),
        _ => true,
    }
}

// Whether none of the strings in the content of a subsection has a zero byte.
fn texts_are_whole(content: &[u8]) -> bool
    ensures { (texts : List (List ℕ)) → content.now ≡ strings texts → length content.now < 2 ^ 32
        → IsTrue result ↔ AllByRecursion IsWholeId texts }
{
    let mut left = Cursor::new(content);
    while !left.at_end() {
        if !text_is_whole(&mut left) {
            return false;
        }
    }
    true
}

// Skips a string, and returns whether it has no zero byte.
fn text_is_whole(left: &mut Cursor) -> bool
    ensures goes_on { IsTrue result → length left.new < length left.old }
    ensures judged { (text rest : List ℕ) → left.old ≡ string text ++ rest → length text < 2 ^ 32
        → IsJudged (IsWholeId text) result left.new rest }
{
    match take_string(left) {
        Some(text) => !has_zero(text),
        None => false,
    }
}
