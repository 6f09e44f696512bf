//! Findings as JSON objects.

ghost use Rattle.std.specs.Prelude.{◌≡◌, ◌∷◌, [], OnOk};
ghost use Rattle.key_text.specs.Marker.{marker_word};
ghost use Rattle.krl_entries.specs.Reasons.{any_reason};
ghost use Rattle.json_lines.specs.Field.{json_line, text_field};
ghost use Rattle.audit_text.specs.Objects.{cert_fields, front_fields, front_word, key_object};
ghost use Rattle.audit_text.specs.Objects.{marker_fields, status_word, unread_object};
ghost use Rattle.audit_text.specs.Place.{place_of};
ghost use Rattle.audit_text.specs.Print.{print_by};
ghost use Rattle.audit_text.specs.Verdict.{answer_of};
ghost use Rattle.audit_lines.specs.Outcome.{found_as};

use crate::explained::ExplainedOf;
use crate::place::Location;
use crate::print::{KeyPrint, Spelling};
use crate::reason_values::ReasonsOf;
use crate::text::{Verdict, type_of};
use audit_lines::Why;
use json_lines::{
    Array, Digits, Fields, LineWriter, Named, Object, Text, Value, fields, object, put_fields,
};
use key_text::Marker;
use krl_entries::Reasons;
use krl_fingerprints::KeysBy;
use krl_types::CertNames;
use line_pieces::put;
use std::alloc::{AllocError, Global};

/// Makes the line of a key.
pub(crate) fn write_key_object(
    location: Location<'_, '_>,
    verdict: &Verdict<'_>,
    line: &mut Vec<u8>,
) -> Result<(), AllocError>
    ensures { OnOk result (line.new.items
        ≡ json_line (key_object (place_of location.entry)
        (found_as verdict.now.found.now verdict.now.subject.now) (answer_of verdict.now))) }
{
    let subject = verdict.subject;
    let found = verdict.found;
    let spelling = Spelling::explained(KeysBy::Blob, verdict.explanation);
    object!(line; location,
        "status": status_word(verdict.reasons),
        "type": Text(type_of(found.blob.as_slice())),
        "fingerprint": Fingerprint(KeysBy::Blob, subject.plain.as_slice()),
        "comment": Text(found.comment),
        fields!(MarkerOf(found.marker), Front(found.hosts, found.front)),
        CertOf(KeysBy::Blob, &subject.cert),
        "reasons": Array(ReasonsOf(spelling, subject, verdict.reasons)),
        ExplainedOf(KeysBy::Blob, subject, verdict.explanation))
}

/// Makes the line for a line or file that is not read.
pub(crate) fn write_unread_object(
    location: Location<'_, '_>,
    why: Why,
    line: &mut Vec<u8>,
) -> Result<(), AllocError>
    ensures { OnOk result (line.new.items
        ≡ json_line (unread_object (place_of location.entry) why)) }
{
    object!(line; location, why)
}

/// The fingerprint of a key that is given so.
#[derive(Drop)]
pub struct Fingerprint<'a>(pub KeysBy, pub &'a [u8]);

impl<'a> Value for Fingerprint<'a> {
    ghost field = { λ name key. text_field name (print_by key.0 key.1.now) };

    fn put_as(&self, alloc: Global, name: &str, out: &mut LineWriter) -> Result<(), AllocError> {
        let mut print = Vec::new(alloc);
        let Fingerprint(by, key) = *self;
        put!(&mut print; KeyPrint { alloc, by, key })?;
        Text(&print).put_as(alloc, name, out)
    }
}

/// The status of a key: revoked or not.
pub fn status_word(reasons: Reasons) -> &'static str
    ensures { result.now ≡ status_word (any_reason reasons) }
{
    if reasons.any() { "revoked" } else { "ok" }
}

// A marker, if there is one.
#[derive(Drop)]
struct MarkerOf(Option<Marker>);

impl Fields for MarkerOf {
    ghost fields = { λ marker. marker_fields marker.0 };

    #[tactic(auto, unfolding(json_lines::specs::Field::fields_tokens))]
    fn put_fields(&self, alloc: Global, out: &mut LineWriter) -> Result<(), AllocError> {
        match self.0 {
            None => Ok(()),
            Some(marker) => put_fields!(alloc, out; "marker": marker_word(marker)),
        }
    }
}

// A marker, as it is in its line.
fn marker_word(marker: Marker) -> &'static str
    ensures { result.now ≡ marker_word marker }
{
    match marker {
        Marker::Authority => "@cert-authority",
        Marker::Revoked => "@revoked",
    }
}

// The host names or the options field, if there is one.
#[derive(Drop)]
struct Front<'a>(bool, &'a [u8]);

impl<'a> Fields for Front<'a> {
    ghost fields = { λ front. front_fields front.0 front.1.now };

    #[tactic(auto, unfolding(json_lines::specs::Field::fields_tokens))]
    fn put_fields(&self, alloc: Global, out: &mut LineWriter) -> Result<(), AllocError> {
        if self.1.is_empty() {
            return Ok(());
        }
        Named(front_word(self.0), Text(self.1)).put_fields(alloc, out)
    }
}

// The kind of the text before a key.
fn front_word(hosts: bool) -> &'static str
    ensures { result.now ≡ front_word hosts }
{
    if hosts { "hosts" } else { "options" }
}

/// The query for a certificate, if it is one: its serial number, its key ID and its authority, which
/// is given so.
#[derive(Drop)]
pub struct CertOf<'a>(pub KeysBy, pub &'a Option<CertNames<'a>>);

impl<'a> Fields for CertOf<'a> {
    ghost fields = { λ cert. cert_fields cert.0 cert.1.now };

    #[tactic(auto, unfolding(json_lines::specs::Field::fields_tokens))]
    fn put_fields(&self, alloc: Global, out: &mut LineWriter) -> Result<(), AllocError> {
        let Some(cert) = self.1 else {
            return Ok(());
        };
        let names = fields!("serial": Digits(u128::from(cert.serial)), "id": Text(cert.key_id),
            "authority": Fingerprint(self.0, cert.authority));
        put_fields!(alloc, out; "certificate": Object(names))
    }
}
