//! Why a key or a certificate is revoked.

use crate::tests::said::{A, ALL, About, B, G, Said, held_of, subject_of};
use key_text::{sha1_of, sha256_of};
use krl_entries::{Reason, Reasons};
use span_sets::Held;
use std::alloc::Global;
use std::process::Abort;

// The certificate of the query.
const CERTIFICATE: About<'static> = Some((A, 7, b"id"));

// The hashes of a key and of the certificate's authority.
#[derive(Drop)]
struct Hashes {
    key_sha1: [u8; 20],
    key_sha256: [u8; 32],
    authority_sha1: [u8; 20],
    authority_sha256: [u8; 32],
}

fn make_hashes() -> Hashes {
    Hashes {
        key_sha1: sha1_of(G),
        key_sha256: sha256_of(G),
        authority_sha1: sha1_of(A),
        authority_sha256: sha256_of(A),
    }
}

// The entry that revokes the certificate for this reason alone.
fn said_for<'a>(reason: Reason, hashes: &'a Hashes) -> Said<'a> {
    match reason {
        Reason::Key => Said::Key(G),
        Reason::KeySha1 => Said::Sha1(&hashes.key_sha1),
        Reason::KeySha256 => Said::Sha256(&hashes.key_sha256),
        Reason::Authority => Said::Key(A),
        Reason::AuthoritySha1 => Said::Sha1(&hashes.authority_sha1),
        Reason::AuthoritySha256 => Said::Sha256(&hashes.authority_sha256),
        Reason::Serial => Said::Serials(A, 7, 7),
        Reason::SerialOfAll => Said::Serials(ALL, 5, 9),
        Reason::KeyId => Said::Id(A, b"id"),
        Reason::KeyIdOfAll => Said::Id(ALL, b"id"),
    }
}

/// The only reason is this one, or there is none.
pub fn says_only(rt: &impl Abort, found: Reasons, only: Option<Reason>, place: (usize, usize)) {
    assert_eq!(rt; found.any(), only.is_some(), "any reason: {place:?}");
    for (i, reason) in Reason::ALL.iter().enumerate() {
        assert_eq!(rt;
            found.has(*reason),
            only == Some(*reason),
            "reason {i}: {place:?}"
        );
    }
}

// The reasons why the entries revoke the subject.
fn reasons_of(rt: &impl Abort, alloc: Global, said: &[Said<'_>], about: About<'_>) -> Reasons {
    held_of::<Held>(rt, alloc, said).reasons(&subject_of(rt, alloc, about))
}

#[test]
fn each_entry_is_its_reason_alone(rt: HostRuntime) {
    let hashes = make_hashes();
    for (i, reason) in Reason::ALL.iter().enumerate() {
        let found = reasons_of(&rt, rt.alloc(), &[said_for(*reason, &hashes)], CERTIFICATE);
        says_only(&rt, found, Some(*reason), (i, 0));
    }
}

#[test]
fn a_plain_key_has_no_reason_of_a_certificate(rt: HostRuntime) {
    let hashes = make_hashes();
    for (i, reason) in Reason::ALL.iter().enumerate() {
        let found = reasons_of(&rt, rt.alloc(), &[said_for(*reason, &hashes)], None);
        let only = if i < 3 { Some(*reason) } else { None };
        says_only(&rt, found, only, (i, 1));
    }
}

#[test]
fn all_reasons_are_said_at_once(rt: HostRuntime) {
    let hashes = make_hashes();
    let mut said: Vec<Said<'_>> = Vec::new(rt.alloc());
    for reason in Reason::ALL {
        said.push(said_for(reason, &hashes))
            .expect(&rt, "there is memory");
    }
    let found = reasons_of(&rt, rt.alloc(), &said, CERTIFICATE);
    for (i, reason) in Reason::ALL.iter().enumerate() {
        assert!(rt; found.has(*reason), "reason {i}");
    }
}

#[test]
fn names_of_others_are_no_reason(rt: HostRuntime) {
    let others = [
        Said::Serials(B, 7, 7),
        Said::Serials(A, 8, 8),
        Said::Id(B, b"id"),
        Said::Id(A, b"i"),
        Said::Key(B),
        Said::Sha1(&sha1_of(B)),
        Said::Sha256(&sha256_of(B)),
    ];
    says_only(
        &rt,
        reasons_of(&rt, rt.alloc(), &others, CERTIFICATE),
        None,
        (0, 0),
    );
}
