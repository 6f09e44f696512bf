//! The callers of the pages of `text_index` and `krl_fingerprints`.

use crate::tests::fingerprints::GITHUB_SHA256;
use krl_entries::{Reasons, Revocations};
use krl_fingerprints::{KeysBy, fingerprint_list};
use krl_types::Subject;
use span_sets::Held;
use ssh_wire::Bytes;
use std::alloc::{AllocError, Global};
use std::process::Abort;
use std::test::Fail;
use test_fixtures::GITHUB;
use text_entries::{Standing, TextFault};
use text_index::{Explanation, TextIndex};

/// The index of one text, on a day by its number from 1970-01-01 on.
fn index_of<'t>(
    alloc: Global,
    today: u64,
    file: &'t str,
    text: &'t [u8],
) -> Result<TextIndex<'t>, TextFault> {
    let mut index = TextIndex::new(alloc, KeysBy::Blob);
    index.add_text(alloc, &mut Standing::new(alloc, today), file, text)?;
    Ok(index)
}

/// Whether a list revokes the key that has this SHA-256.
fn revokes_print(
    alloc: Global,
    list: &Revocations<Held>,
    sha256: &[u8; 32],
) -> Result<bool, AllocError> {
    let prints = fingerprint_list(alloc, list)?;
    let print = Vec::from_slice(alloc, sha256)?;
    let subject = Subject {
        plain: Bytes::from_vec(print),
        cert: None,
    };
    Ok(prints.query(&subject))
}

#[test]
fn the_caller_of_the_page(rt: HostRuntime) {
    let alloc = rt.alloc();
    let index = index_of(alloc, 0, "a", b"key-blob: AQ== # OPS-1\n").expect(&rt, "it is right");
    let key = Vec::from_slice(alloc, b"\x01").expect(&rt, "there is memory");
    let subject = Subject {
        plain: Bytes::from_vec(key),
        cert: None,
    };
    let explanation: Explanation<'_> = index
        .explain(alloc, &subject, Reasons { bits: 1 })
        .expect(&rt, "there is memory");
    assert!(rt; explanation.lines.len() == 1);
    assert!(rt; explanation.unnamed.bits == 0);
    assert!(rt; index_of(alloc, 0, "a", b"id: b").is_err());
}

#[test]
fn a_key_by_its_fingerprint(rt: HostRuntime) -> Result<(), Fail> {
    let alloc = rt.alloc();
    let mut list: Revocations<Held> = Revocations::new(alloc);
    assert!(rt; !revokes_print(alloc, &list, &GITHUB_SHA256)?);
    list.add_key(GITHUB)?;
    assert!(rt; revokes_print(alloc, &list, &GITHUB_SHA256)?);
    assert!(rt; !revokes_print(alloc, &list, &[0; 32])?);
    Ok(())
}
