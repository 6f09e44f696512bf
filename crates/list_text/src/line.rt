//! The lines of the text of a list (krl(1), THE TEXT OF A LIST).

ghost use Rattle.std.specs.Prelude.{◌≡◌, ◌++◌, IfOk, OnOk, option_map};
ghost use Rattle.std.specs.List.{list_all};
ghost use Rattle.ssh_key.specs.KeyReading.{key_at};
ghost use Rattle.list_text.specs.Facts.{fact_of};
ghost use Rattle.list_text.specs.Forms.{names_in};
ghost use Rattle.list_text.specs.Text.{authority_line, fact_line, hash_line, hash_text, id_line};
ghost use Rattle.list_text.specs.Text.{comment_part, has_blank_end, is_text, is_text_byte};
ghost use Rattle.list_text.specs.Changes.{change_line, mark_of};
ghost use Rattle.list_text.specs.Text.{header_line, list_line, looks_otherwise, name_part};
ghost use Rattle.list_text.specs.Text.{named_line, serials_line, unnamed_line};

use crate::fact::Fact;
use crate::side::Side;
use base64::engine::general_purpose::{STANDARD, STANDARD_NO_PAD};
use cert_listing::time_text;
use key_text::{Hash, fingerprint};
use krl_entries::Fact as HeldFact;
use krl_format::Header;
use krl_types::ItemKind;
use line_pieces::{Printed, Visible, Words, pieces, put};
use serial_set::Span;
use ssh_key::read_key;
use std::alloc::{AllocError, Global};
use text_entries::{NamesByKey, no_id};

/// Appends the line of a change: the mark of its side, or blanks before an authority, and the line
/// of the fact.
pub(crate) fn push_change(
    alloc: Global,
    side: Side,
    names: Option<&NamesByKey>,
    fact: Fact<'_>,
    line: &mut Vec<u8>,
) -> Result<(), AllocError>
    ensures { OnOk result (line.new.items
        ≡ line.old.items ++ change_line (names_in names.entry) side (fact_of fact.entry)) }
{
    line.extend_from_slice(mark_of(side, fact))?;
    push_line(alloc, names, fact, line)
}

// The mark before the line of a change. An authority is not changed itself.
fn mark_of(side: Side, fact: Fact<'_>) -> &'static [u8]
    ensures { result.now ≡ mark_of side (fact_of fact.entry) }
{
    match (side, fact) {
        (_, Fact::Held(HeldFact::Authority(_))) => b"  ",
        (Side::Added, _) => b"+ ",
        (Side::Removed, _) => b"- ",
    }
}

/// Appends the line of a fact.
#[inline(always)]
#[tactic(auto, unfolding(crate::specs::Text::fact_line))]
pub(crate) fn push_line(
    alloc: Global,
    names: Option<&NamesByKey>,
    fact: Fact<'_>,
    line: &mut Vec<u8>,
) -> Result<(), AllocError>
    ensures { OnOk result (line.new.items
        ≡ line.old.items ++ fact_line (names_in names.entry) (fact_of fact.entry)) }
{
    match fact {
        Fact::List(name, header) => push_list(alloc, name, header, line),
        Fact::Held(HeldFact::Authority(authority)) => {
            push_authority(alloc, name_in(names, authority), authority, line)
        }
        Fact::Held(HeldFact::Serials(authority, span)) => {
            push_name(name_in(names, authority), line)?;
            push_serials(span, line)
        }
        Fact::Held(HeldFact::Item(ItemKind::Id, authority, id)) => {
            push_name(name_in(names, authority), line)?;
            push_id(alloc, id, line)
        }
        Fact::Held(HeldFact::Item(ItemKind::Key, _, blob)) => {
            push_named(alloc, b"key", blob, line)
        }
        Fact::Held(HeldFact::Item(ItemKind::Sha1, _, hash)) => {
            push_hash(alloc, b"SHA1:", hash, line)
        }
        Fact::Held(HeldFact::Item(ItemKind::Sha256, _, hash)) => {
            push_hash(alloc, b"SHA256:", hash, line)
        }
    }
}

/// Appends the line of a fact, without the name of a list.
#[inline(always)]
pub(crate) fn push_unnamed(
    alloc: Global,
    names: Option<&NamesByKey>,
    fact: Fact<'_>,
    line: &mut Vec<u8>,
) -> Result<(), AllocError>
    ensures { OnOk result (line.new.items
        ≡ line.old.items ++ unnamed_line (names_in names.entry) (fact_of fact.entry)) }
{
    match fact {
        Fact::List(_, header) => push_header(alloc, header, line),
        Fact::Held(_) => push_line(alloc, names, fact, line),
    }
}

/// The name of an authority, if it is given one.
pub(crate) fn name_in<'n>(names: Option<&'n NamesByKey>, authority: &[u8]) -> Option<&'n [u8]>
    ensures { option_map (λ name. name.now) result ≡ names_in names.entry authority.now }
{
    names?.name(authority)
}

// Appends the name of the authority of an entry, if it has one.
fn push_name(name: Option<&[u8]>, line: &mut Vec<u8>) -> Result<(), AllocError>
    ensures { OnOk result (line.new.items
        ≡ line.old.items ++ name_part (option_map (λ name. name.now) name.entry)) }
{
    match name {
        None => Ok(()),
        Some(name) => put!(line; b"@", Words(name), b" "),
    }
}

// The comment of a list, if it has one, after a comma.
#[derive(Clone, Copy)]
struct Comment<'a>(&'a [u8]);

impl<'a> Printed for Comment<'a> {
    ghost text = { λ comment. comment_part comment.0.now };

    fn push_to(&self, out: &mut Vec<u8>) -> Result<(), AllocError> {
        if self.0.is_empty() {
            return Ok(());
        }
        put!(out; b", ", Visible(self.0, false))
    }
}

// Appends the comment about a list.
fn push_list(
    alloc: Global,
    name: &str,
    header: Option<&Header>,
    line: &mut Vec<u8>,
) -> Result<(), AllocError>
    ensures { OnOk result (line.new.items ≡ line.old.items
        ++ list_line name.now (option_map (λ header. header.now) header.entry)) }
{
    let name = Visible(name.as_bytes(), false);
    let Some(header) = header else {
        return put!(line; b"# ", name, b": a plain list\n");
    };
    let date = time_text(alloc, header.date)?;
    put!(line; b"# ", name, b": version ", header.version, b", ", Words(&date),
        Comment(header.comment.as_slice()), b"\n")
}

// Appends the comment about a list without its name. A plain list has none.
fn push_header(alloc: Global, header: Option<&Header>, line: &mut Vec<u8>) -> Result<(), AllocError>
    ensures { OnOk result (line.new.items ≡ line.old.items
        ++ header_line (option_map (λ header. header.now) header.entry)) }
{
    let Some(header) = header else {
        return Ok(());
    };
    let date = time_text(alloc, header.date)?;
    put!(line; b"# version ", header.version, b", ", Words(&date),
        Comment(header.comment.as_slice()), b"\n")
}

// Appends the line of an authority.
fn push_authority(
    alloc: Global,
    name: Option<&[u8]>,
    authority: &[u8],
    line: &mut Vec<u8>,
) -> Result<(), AllocError>
    ensures { OnOk result (line.new.items ≡ line.old.items
        ++ authority_line (option_map (λ name. name.now) name.entry) authority.now) }
{
    if let Some(name) = name {
        line.extend_from_slice(b"@")?;
        return push_named(alloc, name, authority, line);
    }
    if authority.is_empty() {
        return put!(line; b"ca: all\n");
    }
    push_named(alloc, b"ca", authority, line)
}

// Appends the line of a key, or of bytes that are no key.
fn push_named(
    alloc: Global,
    label: &[u8],
    blob: &[u8],
    line: &mut Vec<u8>,
) -> Result<(), AllocError>
    ensures { OnOk result (line.new.items ≡ line.old.items
        ++ named_line label.now blob.now (key_at blob.now)) }
{
    let encoded = STANDARD.encode(alloc, blob)?;
    let encoded = Words(encoded.as_bytes());
    let Ok(key) = read_key(blob) else {
        return put!(line; Words(label), b"-blob: ", encoded, b"\n");
    };
    let print = fingerprint(alloc, Hash::Sha256, blob)?;
    let kind = Words(key.kind().name().as_bytes());
    put!(line; Words(label), b": ", kind, b" ", encoded, b" # ", Words(&print), b"\n")
}

// Appends the line of serial numbers: of one, or of the first and the last.
fn push_serials(span: Span, line: &mut Vec<u8>) -> Result<(), AllocError>
    ensures { OnOk result (line.new.items ≡ line.old.items ++ serials_line span) }
{
    if span.lo == span.hi {
        return put!(line; b"serial: ", span.lo, b"\n");
    }
    put!(line; b"serial: ", span.lo, b"-", span.hi, b"\n")
}

// Appends the line of a key ID.
fn push_id(alloc: Global, id: &[u8], line: &mut Vec<u8>) -> Result<(), AllocError>
    ensures { OnOk result (line.new.items ≡ line.old.items ++ id_line id.now) }
{
    if is_text(id) {
        return put!(line; b"id: ", Words(id), b"\n");
    }
    let digits = hex::encode(alloc, id)?;
    put!(line; b"id-hex: ", Words(digits.as_bytes()), b"\n")
}

// Whether a line can have a key ID as it is.
fn is_text(id: &[u8]) -> bool
    ensures { result ≡ is_text id.now }
{
    !id.is_empty() && !has_blank_end(id) && !looks_otherwise(id) && are_text_bytes(id)
}

// Whether a reader of texts would not take it for a key ID.
fn looks_otherwise(id: &[u8]) -> bool
    ensures { result ≡ looks_otherwise id.now }
{
    no_id(id).is_some()
}

// Whether a line can have each byte as it is, and none is a `#`.
fn are_text_bytes(id: &[u8]) -> bool
    ensures { result ≡ list_all is_text_byte id.now }
{
    id.iter().all(|byte| is_text_byte(*byte))
}

// Whether a key ID begins or ends with a blank.
fn has_blank_end(id: &[u8]) -> bool
    ensures { result ≡ has_blank_end id.now }
{
    id.starts_with(b" ") || id.ends_with(b" ")
}

// Whether a line can have a byte as it is, and it is no `#`.
fn is_text_byte(byte: u8) -> bool
    ensures { result ≡ is_text_byte byte }
{
    32 <= byte && byte <= 126 && byte != b'#'
}

// Appends the line of a hash.
#[tactic(auto, unfolding(key_text::specs::Fingerprints::unpadded))]
fn push_hash(alloc: Global, label: &[u8], hash: &[u8], line: &mut Vec<u8>) -> Result<(), AllocError>
    ensures { OnOk result (line.new.items ≡ line.old.items ++ hash_line label.now hash.now) }
{
    let text = STANDARD_NO_PAD.encode(alloc, hash)?;
    put!(line; b"hash: ", Words(label), Words(text.as_bytes()), b"\n")
}
