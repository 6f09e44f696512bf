//! The facts about a list as JSON objects.

ghost use Rattle.std.specs.Prelude.{◌≡◌, ◌∷◌, [], OnOk, option_map};
ghost use Rattle.list_text.specs.Facts.{fact_of};
ghost use Rattle.list_text.specs.Objects.{authority_field, authority_text, changes_line, done_line};
ghost use Rattle.list_text.specs.Forms.{names_in};
ghost use Rattle.list_text.specs.Objects.{fact_fields, header_fields, kind_fields, name_fields};
ghost use Rattle.list_text.specs.Objects.{object_line};
ghost use Rattle.list_text.specs.Objects.{side_fields, unnamed_object};
ghost use Rattle.list_text.specs.Text.{hash_text};
ghost use Rattle.json_lines.specs.Field.{text_field};

use crate::counts::Counts;
use crate::fact::Fact;
use crate::line::name_in;
use crate::side::Side;
use base64::engine::general_purpose::STANDARD_NO_PAD;
use cert_listing::time_text;
use json_lines::{
    Array, Digits, Fields, LineWriter, Object, Text, Value, fields, object, put_fields,
};
use key_text::{Hash, fingerprint};
use krl_entries::Fact as HeldFact;
use krl_format::Header;
use krl_types::ItemKind;
use line_pieces::{Words, put};
use std::alloc::{AllocError, Global};
use text_entries::NamesByKey;

/// Makes the line of a fact. It is empty for an authority.
#[tactic(auto, unfolding(crate::specs::Objects::object_line))]
pub(crate) fn write_object(
    names: Option<&NamesByKey>,
    side: Option<Side>,
    fact: Fact<'_>,
    line: &mut Vec<u8>,
) -> Result<(), AllocError>
    ensures { OnOk result (line.new.items
        ≡ object_line (names_in names.entry) side (fact_of fact.entry)) }
{
    if let Fact::Held(HeldFact::Authority(_)) = fact {
        line.clear();
        return Ok(());
    }
    object!(line; SideOf(side), Named(names, fact))
}

/// Makes the line of a fact, without the name of a list. It is empty for an authority and for a
/// plain list.
pub(crate) fn write_unnamed(
    names: Option<&NamesByKey>,
    fact: Fact<'_>,
    line: &mut Vec<u8>,
) -> Result<(), AllocError>
    ensures { OnOk result (line.new.items
        ≡ unnamed_object (names_in names.entry) (fact_of fact.entry)) }
{
    match fact {
        Fact::List(_, None) => {
            line.clear();
            Ok(())
        }
        Fact::List(_, header) => object!(line; HeaderOf(header)),
        Fact::Held(_) => write_object(names, None, fact, line),
    }
}

// The side of a comparison, if there is one.
#[derive(Drop)]
struct SideOf(Option<Side>);

impl Fields for SideOf {
    ghost fields = { λ side. side_fields side.0 };

    #[tactic(auto, unfolding(json_lines::specs::Field::fields_tokens))]
    fn put_fields(&self, alloc: Global, out: &mut LineWriter) -> Result<(), AllocError> {
        match self.0 {
            Some(side) => put_fields!(alloc, out; "change": side.word()),
            None => Ok(()),
        }
    }
}

// A fact, by the names of authorities.
#[derive(Drop)]
struct Named<'a>(Option<&'a NamesByKey>, Fact<'a>);

impl<'a> Fields for Named<'a> {
    ghost fields = { λ named. fact_fields (names_in named.0) (fact_of named.1) };

    #[tactic(auto, unfolding(json_lines::specs::Field::fields_tokens))]
    fn put_fields(&self, alloc: Global, out: &mut LineWriter) -> Result<(), AllocError> {
        let Named(names, fact) = self;
        match *fact {
            Fact::List(name, header) => { put_fields!(alloc, out; "list": name, HeaderOf(header)) }
            Fact::Held(HeldFact::Authority(authority)) => {
                put_fields!(alloc, out; "ca": Authority(authority),
                    NameOf(name_in(*names, authority)))
            }
            Fact::Held(HeldFact::Serials(authority, span)) => {
                let serials = Array(fields!(
                    Digits(u128::from(span.lo)),
                    Digits(u128::from(span.hi))
                ));
                put_fields!(alloc, out; "ca": Authority(authority),
                    NameOf(name_in(*names, authority)), "serial": serials)
            }
            Fact::Held(HeldFact::Item(ItemKind::Id, authority, id)) => {
                put_fields!(alloc, out; "ca": Authority(authority),
                    NameOf(name_in(*names, authority)), "id": Text(id))
            }
            Fact::Held(HeldFact::Item(ItemKind::Key, _, blob)) => {
                let print = fingerprint(alloc, Hash::Sha256, blob)?;
                put_fields!(alloc, out; "key": Text(&print))
            }
            Fact::Held(HeldFact::Item(ItemKind::Sha1, _, hash)) => {
                put_fields!(alloc, out; "hash": HashText(b"SHA1:", hash))
            }
            Fact::Held(HeldFact::Item(ItemKind::Sha256, _, hash)) => {
                put_fields!(alloc, out; "hash": HashText(b"SHA256:", hash))
            }
        }
    }
}

// The version, the date and the comment of a list, if it has them.
#[derive(Drop)]
struct HeaderOf<'a>(Option<&'a Header>);

impl<'a> Fields for HeaderOf<'a> {
    ghost fields = { λ header. header_fields (option_map (λ header. header.now) header.0) };

    #[tactic(auto, unfolding(json_lines::specs::Field::fields_tokens))]
    fn put_fields(&self, alloc: Global, out: &mut LineWriter) -> Result<(), AllocError> {
        let Some(header) = self.0 else {
            return Ok(());
        };
        let date = time_text(alloc, header.date)?;
        put_fields!(alloc, out; "version": Digits(u128::from(header.version)),
            "generated": Text(&date), "comment": Text(header.comment.as_slice()))
    }
}

// An authority.
#[derive(Drop)]
struct Authority<'a>(&'a [u8]);

impl<'a> Value for Authority<'a> {
    ghost field = { λ name authority. text_field name (authority_text authority.0.now) };

    fn put_as(&self, alloc: Global, name: &str, out: &mut LineWriter) -> Result<(), AllocError> {
        if self.0.is_empty() {
            return Text(b"all").put_as(alloc, name, out);
        }
        let print = fingerprint(alloc, Hash::Sha256, self.0)?;
        Text(&print).put_as(alloc, name, out)
    }
}

// The name of an authority, if it has one.
#[derive(Drop)]
struct NameOf<'a>(Option<&'a [u8]>);

impl<'a> Fields for NameOf<'a> {
    ghost fields = { λ name. name_fields (option_map (λ name. name.now) name.0) };

    #[tactic(auto, unfolding(json_lines::specs::Field::fields_tokens))]
    fn put_fields(&self, alloc: Global, out: &mut LineWriter) -> Result<(), AllocError> {
        match self.0 {
            Some(name) => put_fields!(alloc, out; "name": Text(name)),
            None => Ok(()),
        }
    }
}

// A hash, behind the name of its algorithm.
#[derive(Drop)]
struct HashText<'a>(&'a [u8], &'a [u8]);

impl<'a> Value for HashText<'a> {
    ghost field = { λ name hash. text_field name (hash_text hash.0.now hash.1.now) };

    #[tactic(auto, unfolding(key_text::specs::Fingerprints::unpadded))]
    fn put_as(&self, alloc: Global, name: &str, out: &mut LineWriter) -> Result<(), AllocError> {
        let base64 = STANDARD_NO_PAD.encode(alloc, self.1)?;
        let mut text = Vec::new(alloc);
        put!(&mut text; Words(self.0), Words(base64.as_bytes()))?;
        Text(&text).put_as(alloc, name, out)
    }
}

/// Makes the last line: how many facts were printed.
pub(crate) fn write_done(counts: Counts, line: &mut Vec<u8>) -> Result<(), AllocError>
    ensures { OnOk result (line.new.items ≡ done_line counts) }
{
    object!(line; "status": "done", "lists": counts.lists, counts)
}

/// Makes the last line of a comparison as JSON: how many facts were printed for each side.
pub fn write_changes(added: Counts, removed: Counts, line: &mut Vec<u8>) -> Result<(), AllocError>
    ensures { OnOk result (line.new.items ≡ changes_line added removed) }
{
    object!(line; "status": "done", "added": Object(added), "removed": Object(removed))
}

// How many facts of each kind were printed.
impl Fields for Counts {
    ghost fields = { kind_fields };

    fn put_fields(&self, alloc: Global, out: &mut LineWriter) -> Result<(), AllocError> {
        put_fields!(alloc, out; "cas": self.authorities, "serials": Digits(self.serials),
            "ids": self.ids, "keys": self.keys, "hashes": self.hashes)
    }
}
