//! The callers of the pages of `krl_entries`, `krl_format`, `krl_core`, `krl_queries`, `krl_types`
//! and `krl_writer`.

use byte_streams::FromRead;
use krl_core::{Header, Revocations, Walk, read_krl};
use krl_format::Place;
use krl_queries::Questions;
use krl_types::KrlFault;
use krl_writer::{TextFault, krl_text};
use span_sets::Held;
use ssh_cert::{Subject, subject};
use ssh_wire::Bytes;
use std::alloc::{AllocError, Global};
use test_fixtures::{HEADER, PUBLISHED, joined, strings};

/// Whether one revoked key is what is asked about, or its certificate's authority.
fn is_revoked_by(alloc: Global, blob: &[u8], asked: &Subject) -> Result<bool, AllocError> {
    let mut held: Revocations<Held> = Revocations::new(alloc);
    held.add_key(blob)?;
    Ok(held.query(asked))
}

#[test]
fn what_is_held_is_asked(rt: HostRuntime) {
    let key = strings(rt.alloc(), &[b"ssh-ed25519", &PUBLISHED]).expect(&rt, "there is memory");
    let other = strings(rt.alloc(), &[b"ssh-ed25519", &[7; 32]]).expect(&rt, "there is memory");
    let asked = subject(rt.alloc(), &key).expect(&rt, "a key is asked about");
    assert!(rt; matches!(is_revoked_by(rt.alloc(), &key, &asked), Ok(true)));
    assert!(rt; matches!(is_revoked_by(rt.alloc(), &other, &asked), Ok(false)));
}

/// Whether a list revokes the key or the certificate of a blob, where both are read.
fn is_revoked(alloc: Global, list: &[u8], blob: &[u8]) -> Option<bool> {
    let (read, _reader) = read_krl::<Held, _>(alloc, FromRead::new(list));
    let (_header, held) = read.ok()?;
    let asked = subject(alloc, blob).ok()?;
    Some(held.query(&asked))
}

#[test]
fn a_list_is_asked(rt: HostRuntime) {
    let key = strings(rt.alloc(), &[b"ssh-ed25519", &PUBLISHED]).expect(&rt, "there is memory");
    let other = strings(rt.alloc(), &[b"ssh-ed25519", &[7; 32]]).expect(&rt, "there is memory");
    let keys = strings(rt.alloc(), &[&key]).expect(&rt, "there is memory");
    let section = strings(rt.alloc(), &[&keys]).expect(&rt, "there is memory");
    let list = joined(rt.alloc(), &[&HEADER, &[2], &section]).expect(&rt, "there is memory");
    assert!(rt; is_revoked(rt.alloc(), &list, &key) == Some(true));
    assert!(rt; is_revoked(rt.alloc(), &list, &other) == Some(false));
    assert!(rt; is_revoked(rt.alloc(), &HEADER[..40], &key) == None);
    for (blob, revoked) in [(&key, true), (&other, false)] {
        let asked = subject(rt.alloc(), blob).expect(&rt, "a key is asked about");
        assert!(rt; is_revoked_in(rt.alloc(), &list, &asked) == Ok(revoked));
        assert!(rt; is_revoked_in(rt.alloc(), &HEADER[..40], &asked).is_err());
    }
}

/// Whether a list revokes the key or the certificate that is asked about.
fn is_revoked_in(alloc: Global, list: &[u8], asked: &Subject) -> Result<bool, KrlFault> {
    let mut questions: Questions<Held> = Questions::new(alloc);
    questions.ask(asked)?;
    let (read, _reader) = Walk::over(alloc, questions, FromRead::new(list)).read_on();
    let (_header, questions) = read?;
    Ok(questions.answer(asked))
}

/// Whether bytes begin as a list does: with the magic.
fn begins_as_list(bytes: &[u8]) -> bool {
    Place::start().passes(bytes).is_some()
}

#[test]
fn a_list_begins_with_the_magic(rt: HostRuntime) {
    assert!(rt; begins_as_list(&HEADER));
    assert!(rt; !begins_as_list(&HEADER[1..]));
    assert!(rt; !begins_as_list(&HEADER[..7]));
}

/// Whether a list may be good all the same: its reader failed, or memory ran out.
fn may_be_good(fault: KrlFault) -> bool {
    matches!(fault, KrlFault::Read | KrlFault::NoMemory)
}

#[test]
fn a_fault_is_of_the_list_or_not(rt: HostRuntime) {
    let (cut, _reader) = read_krl::<Held, _>(rt.alloc(), FromRead::new(&HEADER[..40]));
    assert!(rt; !may_be_good(cut.err().expect(&rt, "a list that was cut is refused")));
    assert!(rt; may_be_good(KrlFault::Read));
    assert!(rt; may_be_good(KrlFault::NoMemory));
}

/// The bytes of a list that revokes one key.
fn list_of_key(alloc: Global, blob: &[u8]) -> Result<Vec<u8>, TextFault> {
    let mut held: Revocations<Held> = Revocations::new(alloc);
    held.add_key(blob)?;
    let header = Header {
        version: 1,
        date: 0,
        comment: Bytes::from_vec(Vec::new(alloc)),
    };
    krl_text(alloc, &header, &held)
}

#[test]
fn a_list_is_written(rt: HostRuntime) {
    let key = strings(rt.alloc(), &[b"ssh-ed25519", &PUBLISHED]).expect(&rt, "there is memory");
    let list = list_of_key(rt.alloc(), &key).expect(&rt, "there is memory");
    assert!(rt; is_revoked(rt.alloc(), &list, &key) == Some(true));
}
