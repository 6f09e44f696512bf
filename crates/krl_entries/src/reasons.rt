//! Whether a key or a certificate is revoked, and why.

ghost use Rattle.std.specs.Prelude.{◌≡◌, ◌↔◌, ◌<◌, ◌^◌, IsTrue, List};
ghost use Rattle.std.specs.Option.{option_map};
ghost use Rattle.krl_types.specs.Entry.{Entry};
ghost use Rattle.krl_entries.specs.Named.{named};
ghost use Rattle.krl_entries.specs.Reasons.{IsReason, any_reason, has_reason, held_reasons};
ghost use Rattle.krl_entries.specs.Reasons.{name_asked, passes, revokes, with_bit};
ghost use Rattle.krl_entries.specs.Revocations.{Means};
ghost use Rattle.krl_entries.specs.Revoked.{Revoked};
ghost use Rattle.krl_entries.specs.Tested.{holds_name};
ghost use Rattle.krl_entries.specs.declared.reasons.Reason.{Reason as ReasonOf};

use crate::name::Name;
use crate::revocations::Revocations;
use krl_types::Subject;
use serial_set::Spans;

/// A way in which entries revoke a key or a certificate.
#[derive(Clone, Copy, PartialEq, Eq)]
pub enum Reason {
    /// An entry is the key.
    Key,
    /// An entry is the SHA-1 of the key.
    KeySha1,
    /// An entry is the SHA-256 of the key.
    KeySha256,
    /// An entry is the key of the certificate's authority.
    Authority,
    /// An entry is the SHA-1 of the key of the certificate's authority.
    AuthoritySha1,
    /// An entry is the SHA-256 of the key of the certificate's authority.
    AuthoritySha256,
    /// An entry names the serial number under the certificate's authority.
    Serial,
    /// An entry names the serial number under all authorities.
    SerialOfAll,
    /// An entry is the key ID under the certificate's authority.
    KeyId,
    /// An entry is the key ID under all authorities.
    KeyIdOfAll,
}

impl Reason {
    /// Every reason, in the order in which people read them and of the bits of `Reasons`, the
    /// lowest first.
    pub const ALL: [Reason; 10] = [
        Reason::Key,
        Reason::KeySha1,
        Reason::KeySha256,
        Reason::Authority,
        Reason::AuthoritySha1,
        Reason::AuthoritySha256,
        Reason::Serial,
        Reason::SerialOfAll,
        Reason::KeyId,
        Reason::KeyIdOfAll,
    ];

    /// The name that an entry has for this reason. Only a certificate has one for a reason that is
    /// about its authority, its serial number or its key ID.
    pub fn name<'s>(self, subject: &'s Subject<'s>) -> Option<Name<'s>>
        ensures { option_map named result ≡ name_asked self subject.now }
    {
        let plain = subject.plain.as_slice();
        match (self, &subject.cert) {
            (Reason::Key, _) => Some(Name::Key(plain)),
            (Reason::KeySha1, _) => Some(Name::Sha1(plain)),
            (Reason::KeySha256, _) => Some(Name::Sha256(plain)),
            (_, None) => None,
            (Reason::Authority, Some(cert)) => Some(Name::Key(cert.authority)),
            (Reason::AuthoritySha1, Some(cert)) => Some(Name::Sha1(cert.authority)),
            (Reason::AuthoritySha256, Some(cert)) => Some(Name::Sha256(cert.authority)),
            (Reason::Serial, Some(cert)) => Some(Name::Serial(cert.authority, cert.serial)),
            (Reason::SerialOfAll, Some(cert)) => Some(Name::Serial(&[], cert.serial)),
            (Reason::KeyId, Some(cert)) => Some(Name::Id(cert.authority, cert.key_id)),
            (Reason::KeyIdOfAll, Some(cert)) => Some(Name::Id(&[], cert.key_id)),
        }
    }
}

/// The ways in which entries revoke a key or a certificate: a bit for each reason.
#[derive(Clone, Copy)]
pub struct Reasons {
    pub bits: u16,
}

impl Reasons {
    /// Whether this is one of them.
    pub fn has(self, reason: Reason) -> bool
        ensures { result ≡ has_reason self reason }
    {
        self.bits >> reason as u16 & 1 == 1
    }

    /// Whether there is a reason.
    pub fn any(self) -> bool
        ensures { result ≡ any_reason self }
    {
        0 < self.bits
    }
}

// The bits of a number, each one position higher, and a lowest one below them.
fn with_bit(bits: u16, lowest: bool) -> u16
    requires { bits < 2 ^ 15 }
    ensures { result ≡ with_bit bits lowest }
{
    2 * bits + u16::from(lowest)
}

impl<S: Spans> Revocations<S> {
    /// Whether a plain key or a certificate is revoked (ssh-keygen(1), KEY REVOCATION LISTS).
    /// Allocates nothing. A hash is computed only if there are hashes of its kind.
    pub fn query(&self, subject: &Subject) -> bool
        ensures revoked { (entries : List Entry) → Means self.now entries
            → (IsTrue result ↔ Revoked entries subject.now) }
        ensures tested { result ≡ revokes self.now subject.now }
    {
        self.reasons(subject).any()
    }

    /// Why a plain key or a certificate is revoked: every reason. Allocates nothing. A hash is
    /// computed only if there are hashes of its kind.
    pub fn reasons(&self, subject: &Subject) -> Reasons
        ensures meant { (entries : List Entry) → Means self.now entries → (reason : ReasonOf)
            → (IsTrue (has_reason result reason) ↔ IsReason entries subject.now reason) }
        ensures tested { result ≡ held_reasons self.now subject.now }
        ensures small { result.bits < 2 ^ 10 }
    {
        let mut bits = 0;
        let mut left = Reason::ALL.len();
        while left > 0 {
            left -= 1;
            let held = self.has_asked(Reason::ALL[left].name(&*subject));
            bits = with_bit(bits, held);
        }
        Reasons { bits }
    }

    /// Whether a name is held, under exactly the authority that it has.
    pub fn has(&self, name: Name<'_>) -> bool
        ensures { result ≡ holds_name self.now (named name.entry) }
    {
        match name {
            Name::Serial(authority, serial) => self.has_serial(authority, serial),
            Name::Id(authority, id) => self.has_id(authority, id),
            Name::Key(blob) => self.has_blob(blob),
            Name::Sha1(blob) => self.has_sha1(blob),
            Name::Sha256(blob) => self.has_sha256(blob),
        }
    }

    // Whether a name is held, if it is one.
    fn has_asked(&self, name: Option<Name<'_>>) -> bool
        ensures { result ≡ passes (holds_name self.now) (option_map named name.entry) }
    {
        match name {
            None => false,
            Some(name) => self.has(name),
        }
    }
}
