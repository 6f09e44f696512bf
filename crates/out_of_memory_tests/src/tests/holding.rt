//! Stored entries, which are unchanged if an addition fails.

use crate::tests::answered::{answered, ran_out};
use crate::tests::parts::{SHA256, blob_of};
use krl_core::Revocations;
use span_sets::Held;
use std::alloc::AllocError;
use std::io::{self, Write};
use std::process::Abort;
use std::test::Fail;
use test_fixtures::GITHUB_LINE;

/// Counts the bytes that it takes.
#[derive(Drop)]
pub struct Counter {
    pub count: usize,
}

impl Write for Counter {
    fn write(&mut self, bytes: &[u8]) -> io::Result<usize> {
        self.count = self.count.saturating_add(bytes.len());
        Ok(bytes.len())
    }

    fn flush(&mut self) -> io::Result<()> {
        Ok(())
    }
}

// The kind of an entry.
#[derive(Clone, Copy)]
enum Entry {
    Key,
    Serial,
    Id,
    Sha1,
    Sha256,
}

const SORTS: [Entry; 5] = [
    Entry::Key,
    Entry::Serial,
    Entry::Id,
    Entry::Sha1,
    Entry::Sha256,
];

/// The number of spans, key IDs, keys and hashes.
pub fn size(held: &Revocations<Held>) -> u128 {
    let mut size = held.held();
    for index in 0..held.authorities() {
        size = size.saturating_add(held.authority_at(index).ids() as u128);
    }
    for count in [held.keys(), held.sha1s(), held.sha256s()] {
        size = size.saturating_add(count as u128);
    }
    size
}

// Adds an entry of this kind.
fn add(held: &mut Revocations<Held>, entry: Entry, byte: u8) -> Result<(), AllocError> {
    match entry {
        Entry::Key => held.add_key(&[byte; 51]),
        Entry::Serial => held.add_serials(&[byte; 51], 5, 5),
        Entry::Id => held.add_id(b"", &[byte; 9]),
        Entry::Sha1 => held.add_sha1(&[byte; 20]),
        Entry::Sha256 => held.add_sha256(&[byte; 32]),
    }
}

// Adds a new entry, a second time if the first addition fails.
fn insist(
    rt: &(impl AllocGlobal + Abort + Print),
    held: &mut Revocations<Held>,
    entry: Entry,
    byte: u8,
) -> Result<(), AllocError> {
    let before = (size(held), held.authorities());
    if add(held, entry, byte).is_err() {
        ran_out(rt);
        assert!(rt; (size(held), held.authorities()) == before);
        add(held, entry, byte)?;
    }
    assert!(rt; size(held) == before.0.saturating_add(1));
    Ok(())
}

/// Two hundred of each kind.
pub fn held(rt: &(impl AllocGlobal + Abort + Print)) -> Option<Revocations<Held>> {
    let mut held = Revocations::new(rt.alloc());
    for byte in 0..200 {
        for entry in SORTS {
            insist(rt, &mut held, entry, byte).ok()?;
        }
    }
    Some(held)
}

#[test]
fn each_addition(rt: HostRuntime) -> Result<(), Fail> {
    let held = held(&rt).ok_or("a second failure")?;
    assert!(rt; size(&held) == 1000 && held.authorities() == 201);
    Ok(())
}

/// Serial 5 and key ID `a` of all authorities, the published key and its SHA-256.
pub fn one_of_each(rt: &(impl AllocGlobal + Abort + Print)) -> Option<Revocations<Held>> {
    let blob = blob_of(rt, GITHUB_LINE)?;
    let mut held = Revocations::new(rt.alloc());
    answered(rt, held.add_serials(b"", 5, 5), AllocError)?;
    answered(rt, held.add_id(b"", b"a"), AllocError)?;
    answered(rt, held.add_key(blob.as_slice()), AllocError)?;
    answered(rt, held.add_sha256(&SHA256), AllocError)?;
    Some(held)
}
