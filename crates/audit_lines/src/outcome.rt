//! The outcomes of each line of a file of keys.

ghost use Rattle.std.specs.Prelude.{◌≡◌, IfOk, None, option_map};
ghost use Rattle.ssh_cert.specs.AnyKey.{asked_of};
ghost use Rattle.ssh_cert.specs.SubjectReading.{subject_of};
ghost use Rattle.key_text.specs.ContainerReading.{private_at};
ghost use Rattle.audit_lines.specs.Outcome.{GivesOpened, GivesOutcome, GivesOutcomes, SaysWhy};
ghost use Rattle.audit_lines.specs.Outcome.{asked_outcome, bare_outcomes, by_either, half_opened};
ghost use Rattle.audit_lines.specs.Outcome.{has_zero, has_zero_in_id, is_bare, is_same};
ghost use Rattle.audit_lines.specs.Outcome.{is_same_part, merged, one};
ghost use Rattle.audit_lines.specs.Outcome.{opened_at};
ghost use Rattle.audit_lines.specs.Outcome.{Outcome as OutcomeOf, outcomes_of, part_outcome};

use crate::front::{Fronts, front_before};
use crate::why::Why;
use key_text::{
    LineFault, Marker, Private, PrivateFault, after_blanks, before_ending, has_key, host_part,
    key_part, read_part, read_private, read_public_half, split_marker,
};
use run_faults::KeyCause;
use ssh_cert::{AnyKey, read_any};
use ssh_wire::Bytes;
use std::alloc::{AllocError, Global};

/// A key of a line or of a private key file.
#[derive(Drop)]
pub struct Found<'a> {
    /// The marker of the line.
    pub marker: Option<Marker>,
    /// True if the text before the key is host names.
    pub hosts: bool,
    /// The text before the key: host names, an options field, or nothing.
    pub front: &'a [u8],
    /// The key's bytes: a plain key or a certificate.
    pub blob: Bytes,
    /// The comment. It may be empty.
    pub comment: &'a [u8],
}

/// The outcome of a line.
#[derive(Drop)]
pub enum Outcome<'a> {
    /// It is empty or a comment.
    Empty,
    /// A key for which a list can be queried.
    Key(Found<'a>),
    /// It is not read.
    Unread(Why),
}

/// The outcomes of a line: two, if ssh and sshd read it in two ways and nobody knows which of them
/// reads it.
#[derive(Drop)]
pub struct Outcomes<'a> {
    /// The outcome.
    pub first: Outcome<'a>,
    /// The other outcome.
    pub second: Option<Outcome<'a>>,
}

// One outcome.
fn one(first: Outcome<'_>) -> Outcomes<'_>
    ensures { (given : OutcomeOf) → GivesOutcome first.entry given
        → GivesOutcomes result (one given) }
{
    Outcomes {
        first,
        second: None,
    }
}

/// The outcomes of a line (sshd(8), AUTHORIZED_KEYS FILE FORMAT and SSH_KNOWN_HOSTS FILE FORMAT):
/// an optional marker, an optional field of options or of host names, a type name, the key in
/// base64 and a comment. A line with a marker is of known hosts. A line that may be of either has
/// both outcomes, if they are not the same. Fails only if an allocation fails.
#[tactic(auto, unfolding(crate::specs::Outcome::outcomes_of, key_text::specs::Blanks::trimmed))]
pub fn read_outcomes<'a>(
    alloc: Global,
    fronts: Fronts,
    text: &'a [u8],
) -> Result<Outcomes<'a>, AllocError>
    ensures { IfOk result (λ read. GivesOutcomes read (outcomes_of fronts text.now)) }
{
    if !has_key(text) {
        return Ok(one(Outcome::Empty));
    }
    let (marker, rest) = split_marker(text);
    read_bare(alloc, fronts, marker, before_ending(after_blanks(rest)))
}

// The outcomes of a line without its marker, the blanks around it and carriage returns at its end.
fn read_bare<'a>(
    alloc: Global,
    fronts: Fronts,
    marker: Option<Marker>,
    line: &'a [u8],
) -> Result<Outcomes<'a>, AllocError>
    ensures { IfOk result (λ read. GivesOutcomes read (bare_outcomes marker fronts line.now)) }
{
    match (fronts, marker) {
        (_, Some(_)) | (Fronts::Hosts, None) => {
            Ok(one(read_by(alloc, marker, true, line, host_part(line))?))
        }
        (Fronts::Options, None) => Ok(one(read_by(alloc, None, false, line, key_part(line))?)),
        (Fronts::Either, None) => read_either(alloc, line),
    }
}

// The outcomes of a line that may be of authorized keys or of known hosts.
#[tactic(auto, unfolding(crate::specs::Outcome::by_either))]
fn read_either<'a>(alloc: Global, line: &'a [u8]) -> Result<Outcomes<'a>, AllocError>
    ensures { IfOk result (λ read. GivesOutcomes read (by_either line.now)) }
{
    let part = key_part(line);
    let other = host_part(line);
    let first = read_by(alloc, None, false, line, part)?;
    if is_same_part(part, other) {
        return Ok(one(first));
    }
    let second = read_by(alloc, None, true, line, other)?;
    Ok(merged(first, second))
}

// Returns true if two parts of a line are the same.
fn is_same_part(part: Option<&[u8]>, other: Option<&[u8]>) -> bool
    ensures { result ≡ is_same_part (option_map (λ text. text.now) part.entry)
        (option_map (λ text. text.now) other.entry) }
{
    match (part, other) {
        (None, None) => true,
        (Some(part), Some(other)) => part == other,
        (None, Some(_)) | (Some(_), None) => false,
    }
}

// The outcomes of a line that one may read in these two ways.
#[tactic(auto, unfolding(crate::specs::Outcome::merged))]
fn merged<'a>(first: Outcome<'a>, second: Outcome<'a>) -> Outcomes<'a>
    ensures { (one other : OutcomeOf) → GivesOutcome first.entry one
        → GivesOutcome second.entry other → GivesOutcomes result (merged one other) }
{
    if is_bare(&first) {
        return one(second);
    }
    if is_bare(&second) || is_same(&first, &second) {
        return one(first);
    }
    Outcomes {
        first,
        second: Some(second),
    }
}

// Returns true if no key type is in a line.
fn is_bare(outcome: &Outcome<'_>) -> bool
    ensures { (given : OutcomeOf) → GivesOutcome outcome.now given → result ≡ is_bare given }
{
    matches!(
        outcome,
        Outcome::Unread(Why::Key(KeyCause::Line(LineFault::NoKey)))
    )
}

// Returns true if both have the same key, or neither has one.
fn is_same(first: &Outcome<'_>, second: &Outcome<'_>) -> bool
    ensures { (one other : OutcomeOf) → GivesOutcome first.now one
        → GivesOutcome second.now other → result ≡ is_same one other }
{
    match (first, second) {
        (Outcome::Key(found), Outcome::Key(other)) => found.blob.as_slice()
            == other.blob.as_slice(),
        (Outcome::Unread(_), Outcome::Unread(_)) => true,
        _ => false,
    }
}

// The outcome of a line by its part from the type name on, if it has one.
#[tactic(auto, unfolding(crate::specs::Outcome::part_outcome))]
fn read_by<'a>(
    alloc: Global,
    marker: Option<Marker>,
    hosts: bool,
    line: &'a [u8],
    part: Option<&'a [u8]>,
) -> Result<Outcome<'a>, AllocError>
    ensures { IfOk result (λ read. GivesOutcome read (part_outcome marker hosts line.now
        (option_map (λ text. text.now) part.entry))) }
{
    let Some(part) = part else {
        return Ok(Outcome::Unread(Why::Key(KeyCause::Line(LineFault::NoKey))));
    };
    match read_part(alloc, part) {
        Ok(read) => {
            let front = front_before(line, part);
            Ok(checked(marker, hosts, front, read.blob, read.comment))
        }
        Err(LineFault::NoMemory) => Err(AllocError),
        Err(fault) => Ok(Outcome::Unread(Why::Key(KeyCause::Line(fault)))),
    }
}

/// A key with these bytes, if they are those of a plain key or of a certificate.
pub fn checked<'a>(
    marker: Option<Marker>,
    hosts: bool,
    front: &'a [u8],
    blob: Bytes,
    comment: &'a [u8],
) -> Outcome<'a>
    ensures { GivesOutcome result
        (asked_outcome marker hosts front.now blob comment.now (subject_of blob)) }
{
    match why_of(blob.as_slice()) {
        None => Outcome::Key(Found {
            marker,
            hosts,
            front,
            blob,
            comment,
        }),
        Some(why) => Outcome::Unread(why),
    }
}

// Why a list cannot be queried for the bytes.
fn why_of(blob: &[u8]) -> Option<Why>
    ensures { SaysWhy result (subject_of blob.now) }
{
    match read_any(blob) {
        Ok(any) => {
            if has_zero_in_id(&any) {
                Some(Why::ZeroInId)
            } else {
                None
            }
        }
        Err(fault) => Some(Why::Key(KeyCause::Subject(fault))),
    }
}

// Returns true if the key ID of a certificate has a zero byte.
fn has_zero_in_id(any: &AnyKey<'_>) -> bool
    ensures { result ≡ has_zero_in_id (asked_of any.now).cert }
{
    match any {
        AnyKey::Plain(_) => false,
        AnyKey::Certified(cert) => has_zero(cert.key_id()),
    }
}

// Returns true if a text has a zero byte.
fn has_zero(text: &[u8]) -> bool
    ensures { result ≡ has_zero text.now }
{
    text.iter().any(|byte| *byte == 0)
}

/// The public key of a private key file, with its comment if it is not encrypted.
pub fn open_private(alloc: Global, text: &[u8]) -> Result<Result<Private, PrivateFault>, AllocError>
    ensures { IfOk result (λ opened. GivesOpened opened (opened_at text.now)) }
{
    match read_private(alloc, text) {
        Err(PrivateFault::Encrypted) => open_half(alloc, text),
        Err(PrivateFault::NoMemory) => Err(AllocError),
        opened => Ok(opened),
    }
}

// The public key of an encrypted private key file.
fn open_half(alloc: Global, text: &[u8]) -> Result<Result<Private, PrivateFault>, AllocError>
    ensures { IfOk result (λ opened. GivesOpened opened (half_opened text.now)) }
{
    match read_public_half(alloc, text) {
        Ok(blob) => Ok(Ok(Private {
            blob,
            comment: Bytes::from_vec(Vec::new(alloc)),
        })),
        Err(PrivateFault::NoMemory) => Err(AllocError),
        Err(fault) => Ok(Err(fault)),
    }
}
