//! The words for the reasons why a key is revoked.

ghost use Rattle.std.specs.Prelude.{◌≡◌, ◌++◌, OnOk, drop};
ghost use Rattle.audit_text.specs.Print.{spelled_of};
ghost use Rattle.audit_text.specs.Text.{reason_parts, reason_words};

use crate::print::{KeyPrint, Spelling};
use krl_entries::{Reason, Reasons};
use krl_types::Subject;
use line_pieces::{Printed, Visible, Words, pieces, put};
use std::alloc::{AllocError, Global};

// The authority that a certificate has, by its name, or else by the fingerprint of its key.
#[derive(Clone, Copy)]
struct OfAuthority<'a>(Global, Spelling<'a>, &'a [u8]);

impl<'a> Printed for OfAuthority<'a> {
    ghost use Rattle.audit_text.specs.Text.{of_authority};

    ghost text = { λ of. of_authority (spelled_of of.1) of.2.now };

    fn push_to(&self, out: &mut Vec<u8>) -> Result<(), AllocError> {
        let OfAuthority(alloc, Spelling { by, authority }, key) = *self;
        match authority {
            None => put!(out; b" of CA ", KeyPrint { alloc, by, key }),
            Some(name) => put!(out; b" of CA ", Visible(name, false)),
        }
    }
}

/// The reasons why a subject is revoked, with commas between them.
#[derive(Clone, Copy)]
pub struct ReasonWords<'a> {
    /// The allocator for the words.
    pub alloc: Global,
    /// How keys are spelled.
    pub spelling: Spelling<'a>,
    /// What is revoked.
    pub subject: &'a Subject<'a>,
    /// The reasons.
    pub reasons: Reasons,
}

impl<'a> Printed for ReasonWords<'a> {
    ghost use Rattle.audit_text.specs.Text.{reasons_text};

    ghost text = { λ words.
        reasons_text (spelled_of words.spelling) words.subject.now words.reasons };

    fn push_to(&self, out: &mut Vec<u8>) -> Result<(), AllocError> {
        let mut parts = Vec::new(self.alloc);
        push_parts(
            self.alloc,
            &mut parts,
            self.spelling,
            self.subject,
            self.reasons,
        )?;
        put!(out; Words(after_first(&parts)))
    }
}

// Appends all reasons, with a comma before each.
fn push_parts(
    alloc: Global,
    text: &mut Vec<u8>,
    spelling: Spelling<'_>,
    subject: &Subject<'_>,
    reasons: Reasons,
) -> Result<(), AllocError>
    ensures { OnOk result (text.new.items
        ≡ text.old.items ++ reason_parts (spelled_of spelling.entry) subject.now reasons) }
{
    for reason in &Reason::ALL {
        if reasons.has(*reason) {
            push_reason(alloc, text, spelling, *reason, subject)?;
        }
    }
    Ok(())
}

// Appends a reason. A plain key has none that is about a certificate.
fn push_reason(
    alloc: Global,
    text: &mut Vec<u8>,
    spelling: Spelling<'_>,
    reason: Reason,
    subject: &Subject<'_>,
) -> Result<(), AllocError>
    ensures { OnOk result (text.new.items
        ≡ text.old.items ++ reason_words (spelled_of spelling.entry) reason subject.now.cert) }
{
    match (reason, &subject.cert) {
        (Reason::Key, _) => put!(text; b", by its key"),
        (Reason::KeySha1, _) => put!(text; b", by its SHA-1"),
        (Reason::KeySha256, _) => put!(text; b", by its SHA-256"),
        (_, None) => Ok(()),
        (Reason::Authority, Some(_)) => put!(text; b", by the key of its CA"),
        (Reason::AuthoritySha1, Some(_)) => put!(text; b", by the SHA-1 of its CA"),
        (Reason::AuthoritySha256, Some(_)) => put!(text; b", by the SHA-256 of its CA"),
        (Reason::Serial, Some(cert)) => {
            put!(text; b", by serial ", cert.serial, OfAuthority(alloc, spelling, cert.authority))
        }
        (Reason::SerialOfAll, Some(cert)) => {
            put!(text; b", by serial ", cert.serial, b" of all CAs")
        }
        (Reason::KeyId, Some(cert)) => put!(text; b", by key ID \"", Visible(cert.key_id, true),
            b"\"", OfAuthority(alloc, spelling, cert.authority)),
        (Reason::KeyIdOfAll, Some(cert)) => {
            put!(text; b", by key ID \"", Visible(cert.key_id, true), b"\" of all CAs")
        }
    }
}

// The reasons without the comma before the first one.
fn after_first(parts: &[u8]) -> &[u8]
    ensures { result.now ≡ drop 1 parts.now }
{
    match parts {
        [] => &[],
        [_, rest @ ..] => rest,
    }
}
