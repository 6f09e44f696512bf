//! Questions about a list that is streamed.

ghost use Rattle.std.specs.Prelude.{◌≡◌, ◌↔◌, ◌+◌, ◌<◌, ◌≤◌, ◌^◌, IsTrue, List, OnOk, Some};
ghost use Rattle.std.specs.Prelude.{length};
ghost use Rattle.krl_types.specs.Entry.{Entry};
ghost use Rattle.krl_entries.specs.Reasons.{IsReason, has_reason, held_reasons, revokes};
ghost use Rattle.krl_entries.specs.Revocations.{IsOrderly, nothing, stored};
ghost use Rattle.krl_entries.specs.Revoked.{Revoked};
ghost use Rattle.krl_entries.specs.Scope.{MeansInScope};
ghost use Rattle.krl_entries.specs.declared.reasons.Reason.{Reason as ReasonOf};
ghost use Rattle.krl_queries.specs.Questions.{Asks, AsksMore, HasAll, HasUnder, asked_in};
ghost use Rattle.krl_queries.specs.Questions.{names_size, serials_in, subject_size};

use krl_entries::{Reasons, Revocations};
use krl_types::{CertNames, Subject};
use serial_set::Spans;
use std::alloc::{AllocError, Global};
use std::collections::BTreeSet;
use std::marker::Model;

/// Questions about a list, and what its entries have named of them so far. Contracts see the
/// topics, which are keys, and serial numbers and key IDs under authorities, and what was found of
/// them.
#[derive(Drop)]
pub struct Questions<S: Spans> {
    pub(crate) topics: Revocations<S>,
    pub(crate) found: Revocations<S>,
    // the hashes of the keys that are asked about, once a hash was looked for
    pub(crate) has_sha1s: bool,
    pub(crate) has_sha256s: bool,
    pub(crate) sha1s: BTreeSet<[u8; 20]>,
    pub(crate) sha256s: BTreeSet<[u8; 32]>,
}

impl<S: Spans> Model for Questions<S> {
    ghost use Rattle.krl_queries.specs.Questions.{AreHashed, Asked};
    ghost use Rattle.sha1.specs.Sha1.{sha1};
    ghost use Rattle.sha2.specs.Sha256.{sha256};

    ghost Value = { Asked };

    ghost view = { λ q. record { topics = q.topics; found = q.found } };

    ghost invariant = { λ q. AreHashed q.has_sha1s sha1 q.topics.keys q.sha1s.keys
        × AreHashed q.has_sha256s sha256 q.topics.keys q.sha256s.keys };
}

impl<S: Spans> Questions<S> {
    /// No questions. Allocates nothing.
    pub fn new(alloc: Global) -> Questions<S>
        ensures topics { result.topics ≡ nothing }
        ensures orderly { IsOrderly result.topics }
        ensures found { result.found ≡ nothing }
    {
        let topics: Revocations<S> = Revocations::new(alloc);
        let _topics = topics.in_order();
        Questions {
            topics,
            found: Revocations::new(alloc),
            has_sha1s: false,
            has_sha256s: false,
            sha1s: BTreeSet::new(alloc),
            sha256s: BTreeSet::new(alloc),
        }
    }

    /// Asks about a key or a certificate too, before the list is read. Fails only if an allocation
    /// fails.
    pub fn ask(&mut self, subject: &Subject) -> Result<(), AllocError>
        ensures asked { OnOk result (Asks self.new.topics subject.now) }
        ensures orderly { IsOrderly self.new.topics }
        ensures more { OnOk result (AsksMore self.old.topics self.new.topics) }
        ensures found { self.new.found ≡ self.old.found }
        ensures serials { serials_in self.new.topics.sections
            ≤ serials_in self.old.topics.sections + 2 }
        ensures stored { stored self.new.topics
            ≤ stored self.old.topics + subject_size subject.now }
        ensures keys { length self.new.topics.keys ≤ length self.old.topics.keys + 2 }
    {
        self.has_sha1s = false;
        self.has_sha256s = false;
        let asked = ask_names(&mut self.topics, subject);
        let _topics = self.topics.in_order();
        asked
    }

    /// Whether a key or a certificate that is asked about is revoked. Allocates nothing.
    pub fn answer(&self, subject: &Subject) -> bool
        requires { Asks self.now.topics subject.now }
        ensures meant { (entries : List Entry)
            → MeansInScope (asked_in self.now) self.now.found entries
            → (IsTrue result ↔ Revoked entries subject.now) }
        ensures tested { result ≡ revokes self.now.found subject.now }
    {
        self.found.query(subject)
    }

    /// Why a key or a certificate that is asked about is revoked: every reason in the list.
    /// Allocates nothing.
    pub fn reasons(&self, subject: &Subject) -> Reasons
        requires { Asks self.now.topics subject.now }
        ensures meant { (entries : List Entry)
            → MeansInScope (asked_in self.now) self.now.found entries → (reason : ReasonOf)
            → (IsTrue (has_reason result reason) ↔ IsReason entries subject.now reason) }
        ensures tested { result ≡ held_reasons self.now.found subject.now }
        ensures small { result.bits < 2 ^ 10 }
    {
        self.found.reasons(subject)
    }

    /// The revocations that were found.
    pub fn found(&self) -> &Revocations<S>
        ensures value { result.now ≡ self.now.found }
        ensures orderly { IsOrderly self.now.found }
    {
        self.found.in_order()
    }
}

// Asks about a key, and about the names of its certificate.
fn ask_names<S: Spans>(topics: &mut Revocations<S>, subject: &Subject) -> Result<(), AllocError>
    ensures asked { OnOk result (Asks topics.new subject.now) }
    ensures more { OnOk result (AsksMore topics.old topics.new) }
    ensures serials { serials_in topics.new.sections ≤ serials_in topics.old.sections + 2 }
    ensures stored { stored topics.new ≤ stored topics.old + subject_size subject.now }
    ensures keys { length topics.new.keys ≤ length topics.old.keys + 2 }
{
    topics.add_key(subject.plain.as_slice())?;
    match &subject.cert {
        None => Ok(()),
        Some(cert) => ask_cert(topics, cert),
    }
}

// Asks about the names of a certificate.
fn ask_cert<S: Spans>(topics: &mut Revocations<S>, cert: &CertNames) -> Result<(), AllocError>
    ensures asked { OnOk result (HasAll topics.new cert.now) }
    ensures more { OnOk result (AsksMore topics.old topics.new) }
    ensures serials { serials_in topics.new.sections ≤ serials_in topics.old.sections + 2 }
    ensures stored { stored topics.new ≤ stored topics.old + names_size (Some cert.now) }
    ensures keys { length topics.new.keys ≤ length topics.old.keys + 1 }
{
    topics.add_key(cert.authority)?;
    ask_under(topics, &[], cert)?;
    ask_under(topics, cert.authority, cert)
}

// Asks about a certificate's key ID and serial number under an authority, or under all authorities
// if it is empty.
fn ask_under<S: Spans>(
    topics: &mut Revocations<S>,
    authority: &[u8],
    cert: &CertNames,
) -> Result<(), AllocError>
    ensures asked { OnOk result (HasUnder topics.new
        authority.now cert.now.key_id cert.now.serial) }
    ensures more { OnOk result (AsksMore topics.old topics.new) }
    ensures serials { serials_in topics.new.sections ≤ serials_in topics.old.sections + 1 }
    ensures stored { stored topics.new
        ≤ stored topics.old + length authority.now + length cert.now.key_id }
    ensures keys { topics.new.keys ≡ topics.old.keys }
{
    topics.add_id(authority, cert.key_id)?;
    if cert.serial == 0 {
        return Ok(());
    }
    topics.add_serials(authority, cert.serial, cert.serial)
}
