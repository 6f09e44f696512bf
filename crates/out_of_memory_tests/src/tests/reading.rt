//! Reading fields and lists.

use crate::tests::answered::{answered, ran_out};
use crate::tests::parts::list_of;
use byte_streams::{FromRead, Pull};
use krl_core::{Header, KrlFault, Reading, Revocations, read_krl};
use span_sets::Held;
use ssh_wire::PullFault;
use std::alloc::{AllocError, Global};
use std::process::Abort;
use test_fixtures::{BITMAP, FIVE, Giver, HEADER, ID_A, KEY_SECTION, SHA256_SECTION, Then, joined};

#[test]
fn a_field(rt: HostRuntime) {
    let mut giver = Giver::new(b"\x01", 1000);
    giver.then = Then::Zeros(usize::MAX);
    let mut pull = Pull::new(FromRead::new(giver), 300_000);
    let found = pull.bytes(rt.alloc(), 200_000);
    match answered(&rt, found, PullFault::NoMemory) {
        Some(bytes) => assert!(rt; bytes.as_slice().len() == 200_000 && pull.taken() == 200_000),
        // No byte of the field is counted, and the fault is reported again.
        None => {
            assert!(rt; pull.taken() == 0 && pull.byte() == Err(PullFault::NoMemory));
        }
    }
}

// The result of reading a list.
fn read(alloc: Global, text: &[u8]) -> Result<(Header, Revocations<Held>), KrlFault> {
    let (read, _) = read_krl::<Held, FromRead<&[u8]>>(alloc, FromRead::new(text));
    read
}

// Serial 7 under the authority `a key`.
const UNDER_A_KEY: &[u8] = b"\x01\0\0\0\x1a\0\0\0\x05a key\0\0\0\0\x20\0\0\0\x08\0\0\0\0\0\0\0\x07";

// The sections of a list, how many spans it has, and how many keys and hashes.
const ROWS: [(&[u8], u128, usize); 6] = [
    (FIVE, 1, 0),
    (BITMAP, 4, 0),
    (UNDER_A_KEY, 1, 0),
    (ID_A, 0, 0),
    (SHA256_SECTION, 0, 1),
    (KEY_SECTION, 0, 1),
];

#[test]
fn whole_lists(rt: HostRuntime) {
    for (sections, spans, others) in &ROWS {
        let Some(text) = list_of(&rt, *sections) else {
            continue;
        };
        let found = read(rt.alloc(), &text);
        if let Some((header, held)) = answered(&rt, found, KrlFault::NoMemory) {
            assert!(rt; header.version == 1 && held.held() == *spans);
            assert!(rt; held.keys().saturating_add(held.sha256s()) == *others);
        }
    }
}

type OfSlice<'a> = Reading<Held, FromRead<&'a [u8]>>;

// The number of spans stored, and the number of bytes taken.
fn state(reading: &OfSlice<'_>) -> (u128, u64) {
    (reading.held(), reading.taken())
}

// A reading in which an allocation failed continues: it reports that again, and nothing changes.
fn stays_refused(rt: &(impl AllocGlobal + Abort + Print), reading: &mut OfSlice<'_>) {
    let before = state(reading);
    for _ in 0..3 {
        assert!(rt; reading.step() == Err(KrlFault::NoMemory));
        assert!(rt; state(reading) == before);
    }
}

// Reads up to the end of the list, or up to a failed allocation, and then continues.
fn step_through(rt: &(impl AllocGlobal + Abort + Print), reading: &mut OfSlice<'_>) -> bool {
    for _ in 0..200 {
        match reading.step() {
            Ok(true) => {}
            Ok(false) => return true,
            Err(fault) => {
                assert!(rt; fault == KrlFault::NoMemory);
                ran_out(rt);
                stays_refused(rt, reading);
                return false;
            }
        }
    }
    false
}

#[test]
fn a_reading(rt: HostRuntime) {
    let parts = [
        HEADER.as_slice(),
        FIVE,
        BITMAP,
        UNDER_A_KEY,
        ID_A,
        KEY_SECTION,
        SHA256_SECTION,
    ];
    let Some(text) = answered(&rt, joined(rt.alloc(), &parts), AllocError) else {
        return;
    };
    let mut reading = OfSlice::new(rt.alloc(), FromRead::new(text.as_slice()));
    if step_through(&rt, &mut reading) {
        // Serials 1, 3, 5 and 7 of all authorities, and 7 of one.
        assert!(rt; state(&reading) == (5, text.len() as u64));
    }
}
