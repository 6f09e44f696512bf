//! The keys, certificates and fingerprints in lines of specification files.

ghost use Rattle.std.specs.Prelude.{◌+◌, ◌*◌, ◌≤◌, IfOk, length};
ghost use Rattle.ssh_wire.specs.Reading.{Answers, in_fault};
ghost use Rattle.key_text.specs.FingerprintReading.{fingerprint_at};
ghost use Rattle.key_text.specs.LineReading.{content_of, line_at};
ghost use Rattle.krl_types.specs.Subject.{Subject};
ghost use Rattle.ssh_cert.specs.Sizes.{IsWithinBlob};
ghost use Rattle.ssh_cert.specs.SubjectReading.{subject_of};
ghost use Rattle.krl_spec.specs.Adding.{Reports};
ghost use Rattle.keyed_lines.specs.declared.key_cause.KeyCause.TheVariants as keys;
ghost use Rattle.krl_spec.specs.Keys.{plain_in};
ghost use Rattle.run_faults.specs.declared.spec_cause.SpecCause.TheVariants.{Fingerprint, Key};

use key_text::{FingerprintFault, Line, LineFault, parse_fingerprint, read_line};
use keyed_lines::KeyCause;
use run_faults::SpecCause;
use ssh_cert::{Subject, SubjectFault, subject};
use ssh_wire::Bytes;
use std::alloc::Global;

/// The content of a key line.
pub fn key_line<'a>(alloc: Global, text: &'a [u8]) -> Result<Line<'a>, SpecCause>
    ensures read { Answers Reports content_of result
        (in_fault Key (in_fault keys.Line (line_at text.now))) }
    ensures room { IfOk result (λ line. 4 * length line.blob + 24 ≤ 3 * length text.now) }
{
    match read_line(alloc, text) {
        Ok(line) => Ok(line),
        Err(LineFault::NoMemory) => Err(SpecCause::NoMemory),
        Err(fault) => Err(SpecCause::Key(KeyCause::Line(fault))),
    }
}

/// The subject of a key's blob.
pub fn ask<'a>(alloc: Global, blob: &'a [u8]) -> Result<Subject<'a>, SpecCause>
    ensures asked { Answers Reports (λ asked. asked) result
        (in_fault Key (in_fault keys.Subject (subject_of blob.now))) }
    ensures room { IfOk result (λ asked. IsWithinBlob blob.now asked) }
{
    match subject(alloc, blob) {
        Ok(asked) => Ok(asked),
        Err(SubjectFault::NoMemory) => Err(SpecCause::NoMemory),
        Err(fault) => Err(SpecCause::Key(KeyCause::Subject(fault))),
    }
}

/// The blob of the plain key of a key line.
#[tactic(auto, unfolding(keyed_lines::specs::Keys::subject_in, crate::specs::Keys::plain_in))]
pub fn plain_key(alloc: Global, text: &[u8]) -> Result<Bytes, SpecCause>
    ensures read { Answers Reports (λ plain. plain) result (plain_in text.now) }
    ensures room { IfOk result (λ plain. length plain ≤ length text.now) }
    ensures least { IfOk result (λ plain. 32 ≤ length text.now) }
{
    let line = key_line(alloc, text)?;
    let Subject { plain, cert: _ } = ask(alloc, line.blob.as_slice())?;
    Ok(plain)
}

/// The digest of a fingerprint.
pub fn read_hash(alloc: Global, text: &[u8]) -> Result<[u8; 32], SpecCause>
    ensures read { Answers Reports (λ digest. digest) result
        (in_fault Fingerprint (fingerprint_at text.now)) }
    ensures room { IfOk result (λ digest. 32 ≤ length text.now) }
{
    match parse_fingerprint(alloc, text) {
        Ok(digest) => Ok(digest),
        Err(FingerprintFault::NoMemory) => Err(SpecCause::NoMemory),
        Err(fault) => Err(SpecCause::Fingerprint(fault)),
    }
}
