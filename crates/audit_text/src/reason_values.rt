//! The reasons why a key is revoked, as JSON objects.

ghost use Rattle.std.specs.Prelude.{◌≡◌, ◌++◌, OnOk, option_map};
ghost use Rattle.json_lines.specs.Field.{values_tokens};
ghost use Rattle.audit_text.specs.Objects.{name_fields, reason_value, reason_values};
ghost use Rattle.audit_text.specs.Print.{spelled_of};

use crate::objects::Fingerprint;
use crate::print::Spelling;
use json_lines::{Digits, Fields, LineWriter, Text, Values, put_fields, put_object};
use krl_entries::{Reason, Reasons};
use krl_types::Subject;
use std::alloc::{AllocError, Global};

/// All reasons why a subject is revoked, with keys that are spelled so.
#[derive(Drop)]
pub struct ReasonsOf<'a>(pub Spelling<'a>, pub &'a Subject<'a>, pub Reasons);

impl<'a> Values for ReasonsOf<'a> {
    ghost values = { λ all. reason_values (spelled_of all.0) all.1.now all.2 };

    fn put_values(&self, alloc: Global, out: &mut LineWriter) -> Result<(), AllocError> {
        for reason in &Reason::ALL {
            if self.2.has(*reason) {
                put_reason(alloc, self.0, *reason, self.1, out)?;
            }
        }
        Ok(())
    }
}

// Writes a reason. A plain key has none that is about a certificate.
#[tactic(auto, unfolding(json_lines::specs::Field::values_tokens))]
fn put_reason(
    alloc: Global,
    spelling: Spelling<'_>,
    reason: Reason,
    subject: &Subject<'_>,
    out: &mut LineWriter,
) -> Result<(), AllocError>
    ensures { OnOk result (out.new
        ≡ out.old ++ values_tokens (reason_value (spelled_of spelling.entry) reason subject.now.cert)) }
{
    let Spelling { by, authority } = spelling;
    match (reason, &subject.cert) {
        (Reason::Key, _) => put_object!(alloc, out; "by": "key"),
        (Reason::KeySha1, _) => put_object!(alloc, out; "by": "sha1"),
        (Reason::KeySha256, _) => put_object!(alloc, out; "by": "sha256"),
        (_, None) => Ok(()),
        (Reason::Authority, Some(_)) => { put_object!(alloc, out; "by": "authority", "of": "key") }
        (Reason::AuthoritySha1, Some(_)) => {
            put_object!(alloc, out; "by": "authority", "of": "sha1")
        }
        (Reason::AuthoritySha256, Some(_)) => {
            put_object!(alloc, out; "by": "authority", "of": "sha256")
        }
        (Reason::Serial, Some(cert)) => {
            put_object!(alloc, out; "by": "serial", "serial": Digits(u128::from(cert.serial)),
                "authority": Fingerprint(by, cert.authority), NameOf(authority))
        }
        (Reason::SerialOfAll, Some(cert)) => {
            put_object!(alloc, out; "by": "serial", "serial": Digits(u128::from(cert.serial)),
                "authority": Text(b"all"))
        }
        (Reason::KeyId, Some(cert)) => {
            put_object!(alloc, out; "by": "id", "id": Text(cert.key_id),
                "authority": Fingerprint(by, cert.authority), NameOf(authority))
        }
        (Reason::KeyIdOfAll, Some(cert)) => {
            put_object!(alloc, out; "by": "id", "id": Text(cert.key_id), "authority": Text(b"all"))
        }
    }
}

// The name of an authority, if it has one.
#[derive(Drop)]
struct NameOf<'a>(Option<&'a [u8]>);

impl<'a> Fields for NameOf<'a> {
    ghost fields = { λ of. name_fields (option_map (λ name. name.now) of.0) };

    #[tactic(auto, unfolding(json_lines::specs::Field::fields_tokens))]
    fn put_fields(&self, alloc: Global, out: &mut LineWriter) -> Result<(), AllocError> {
        match self.0 {
            None => Ok(()),
            Some(name) => put_fields!(alloc, out; "name": Text(name)),
        }
    }
}
