//! Adding the entries that directives and subjects name (ssh-keygen(1), KEY REVOCATION LISTS).

ghost use Rattle.std.specs.Prelude.{◌≡◌, ◌+◌, ◌≤◌, ℕ, List, [], ◌∷◌, MatchResult, None, OnErr};
ghost use Rattle.std.specs.Prelude.{OnOk, Some};
ghost use Rattle.krl_entries.specs.Changes.{MeansMore};
ghost use Rattle.krl_entries.specs.Revocations.{held};
ghost use Rattle.run_faults.specs.declared.spec_cause.SpecCause.TheVariants.{NoAuthority};
ghost use Rattle.krl_spec.specs.Adding.{AddsEntry};
ghost use Rattle.krl_spec.specs.Entries.{id_order, names_entry, order_entry, serial_order};
ghost use Rattle.krl_spec.specs.Stored.{Fits, GrowsBy, GrowsUnder};
ghost use Rattle.krl_spec.specs.Under.{authority_under};

use crate::directive::Directive;
use crate::keys::{plain_key, read_hash};
use crate::number::read_serials;
use crate::under::Under;
use key_text::{sha1_of, sha256_of};
use krl_entries::Revocations;
use run_faults::SpecCause;
use serial_set::Spans;
use ssh_cert::Subject;
use std::alloc::{AllocError, Global};

/// Adds the entry of a directive with its argument.
pub fn add_order<S: Spans>(
    alloc: Global,
    revocations: &mut Revocations<S>,
    under: Under,
    directive: Directive,
    given: &[u8],
) -> Result<(), SpecCause>
    ensures adds { AddsEntry (order_entry (authority_under under.entry) directive given.now) result
        revocations.old revocations.new }
    ensures grows { GrowsBy (authority_under under.entry) given.now
        revocations.old revocations.new }
{
    match directive {
        Directive::Serial => return add_serials(revocations, under, given),
        Directive::Id => return add_id(revocations, under, given),
        Directive::Key => revocations.add_key(plain_key(alloc, given)?.as_slice())?,
        Directive::Sha1 => {
            let plain = plain_key(alloc, given)?;
            revocations.add_sha1(&sha1_of(plain.as_slice()))?;
        }
        Directive::Sha256 => {
            let plain = plain_key(alloc, given)?;
            revocations.add_sha256(&sha256_of(plain.as_slice()))?;
        }
        Directive::Hash => revocations.add_sha256(&read_hash(alloc, given)?)?,
    }
    Ok(())
}

// Adds the serials that a directive names.
fn add_serials<S: Spans>(
    revocations: &mut Revocations<S>,
    under: Under,
    given: &[u8],
) -> Result<(), SpecCause>
    ensures adds { AddsEntry (serial_order (authority_under under.entry) given.now) result
        revocations.old revocations.new }
    ensures grows { GrowsBy (authority_under under.entry) given.now
        revocations.old revocations.new }
{
    let authority = current_authority(under)?;
    let serials = read_serials(given)?;
    revocations.add_serials(authority, serials.lo, serials.hi)?;
    Ok(())
}

// Adds the key ID that a directive names.
fn add_id<S: Spans>(
    revocations: &mut Revocations<S>,
    under: Under,
    given: &[u8],
) -> Result<(), SpecCause>
    ensures adds { AddsEntry (id_order (authority_under under.entry) given.now) result
        revocations.old revocations.new }
    ensures grows { GrowsBy (authority_under under.entry) given.now
        revocations.old revocations.new }
{
    let authority = current_authority(under)?;
    if given.is_empty() {
        return Err(SpecCause::EmptyId);
    }
    revocations.add_id(authority, given)?;
    Ok(())
}

// The bytes of the authority of serials and key IDs that name none themselves.
fn current_authority<'a>(under: Under<'a>) -> Result<&'a [u8], SpecCause>
    ensures { MatchResult result
        (λ authority. authority_under under.entry ≡ Some authority.now)
        (λ cause. (cause ≡ NoAuthority) × (authority_under under.entry ≡ None)) }
{
    match under {
        Under::NotGiven => Err(SpecCause::NoAuthority),
        Under::All => Ok(&[]),
        Under::Of(bytes) => Ok(bytes),
    }
}

/// Adds the entry of a subject: of a plain key its blob, and of a certificate its serial, or its
/// key ID if the serial is 0.
pub fn add_subject<S: Spans>(
    revocations: &mut Revocations<S>,
    asked: &Subject<'_>,
) -> Result<(), AllocError>
    ensures means { OnOk result (MeansMore revocations.old revocations.new
        (names_entry asked.now.plain asked.now.cert ∷ [])) }
    ensures held { held revocations.new ≤ held revocations.old + 1 }
    ensures refused { OnErr result (revocations.new ≡ revocations.old) }
    ensures grows { (current : List ℕ) (size : ℕ)
        → Fits current size (names_entry asked.now.plain asked.now.cert)
        → GrowsUnder current size revocations.old revocations.new }
{
    match &asked.cert {
        None => revocations.add_key(asked.plain.as_slice()),
        Some(names) if names.serial == 0 => revocations.add_id(names.authority, names.key_id),
        Some(names) => revocations.add_serials(names.authority, names.serial, names.serial),
    }
}
