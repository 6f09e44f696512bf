//! Certificates that are truncated, and certificates with one byte changed.

use crate::tests::parts::{certificate, has_fault};
use ssh_cert::{CertFault, read_cert, subject};
use ssh_key::KeyFault;
use ssh_wire::WireFault;
use std::alloc::Global;

// These include the truncations before, within and after each field.
#[test]
fn cut_to_any_length(rt: HostRuntime) {
    let blob = certificate(rt.alloc()).expect(&rt, "there is memory");
    let public = CertFault::Key(KeyFault::Wire(WireFault::Short));
    for size in 0..blob.len() {
        let fault = if (40..=75).contains(&size) {
            public
        } else {
            CertFault::Wire
        };
        assert!(rt; has_fault(&blob[..size], fault), "in case {size}");
    }
}

// Whether the blob is read as a certificate exactly if it has a subject.
fn is_read_where_asked(alloc: Global, blob: &[u8]) -> bool {
    read_cert(blob).is_ok() == subject(alloc, blob).is_ok()
}

#[test]
fn any_byte_changed(rt: HostRuntime) {
    let mut blob = certificate(rt.alloc()).expect(&rt, "there is memory");
    for place in 0..267 {
        let kept = blob
            .get(place)
            .copied()
            .expect(&rt, "the certificate has 267 bytes");
        for byte in [0x00, 0x7f, 0x80, 0xff, kept] {
            if let Some(there) = blob.get_mut(place) {
                *there = byte;
            }
            assert!(rt; is_read_where_asked(rt.alloc(), &blob), "in case {place}");
        }
    }
}
