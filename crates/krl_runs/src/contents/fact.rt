//! The lines of facts, as a list's contents are printed.

ghost use Rattle.std.specs.Prelude.{◌≡◌, OnOk};
ghost use Rattle.krl_entries.specs.Facts.{fact_of};
ghost use Rattle.krl_runs.specs.Contents.{fact_line, item_line, item_text, label_of};

use crate::contents::lines::{write_authority, write_serials};
use base64::engine::general_purpose::{STANDARD, STANDARD_NO_PAD};
use krl_entries::Fact;
use krl_types::ItemKind;
use line_pieces::{Escaped, Printed, Words, put};
use std::alloc::{AllocError, Global};

/// Makes the line of a fact, with its line feed.
pub fn write_fact(alloc: Global, fact: Fact<'_>, line: &mut Vec<u8>) -> Result<(), AllocError>
    ensures { OnOk result (line.new.items ≡ fact_line (fact_of fact.entry)) }
{
    match fact {
        Fact::Authority(authority) => write_authority(alloc, authority, line),
        Fact::Serials(_, span) => write_serials(span, line),
        Fact::Item(kind, _, bytes) => write_item(alloc, kind, bytes, line),
    }
}

// Makes the line of a key ID, a key or a hash.
#[tactic(auto, unfolding(crate::specs::Contents::item_line))]
fn write_item(
    alloc: Global,
    kind: ItemKind,
    bytes: &[u8],
    line: &mut Vec<u8>,
) -> Result<(), AllocError>
    ensures { OnOk result (line.new.items ≡ item_line kind bytes.now) }
{
    line.clear();
    put!(line; Words(label_of(kind)), Value { alloc, kind, bytes }, b"\n")
}

// The text before the value in its line.
fn label_of(kind: ItemKind) -> &'static [u8]
    ensures { result.now ≡ label_of kind }
{
    match kind {
        ItemKind::Id => b"id: ",
        ItemKind::Key => b"key: ",
        ItemKind::Sha1 => b"sha1: ",
        ItemKind::Sha256 => b"hash: SHA256:",
    }
}

// A value as it is printed.
#[derive(Clone, Copy)]
struct Value<'a> {
    alloc: Global,
    kind: ItemKind,
    bytes: &'a [u8],
}

impl<'a> Printed for Value<'a> {
    ghost text = { λ value. item_text value.kind value.bytes.now };

    #[tactic(auto, unfolding(key_text::specs::Fingerprints::unpadded))]
    fn push_to(&self, out: &mut Vec<u8>) -> Result<(), AllocError> {
        let text = match self.kind {
            ItemKind::Id => return put!(out; Escaped(self.bytes)),
            ItemKind::Key => STANDARD.encode(self.alloc, self.bytes)?,
            ItemKind::Sha1 => hex::encode(self.alloc, self.bytes)?,
            ItemKind::Sha256 => STANDARD_NO_PAD.encode(self.alloc, self.bytes)?,
        };
        put!(out; Words(text.as_bytes()))
    }
}
