//! Texts of lists: what is held when an allocation fails.

use crate::tests::answered::{answered, ran_out};
use crate::tests::holding::size;
use krl_core::Revocations;
use krl_spec::SpecCause;
use span_sets::Held;
use std::alloc::AllocError;
use test_fixtures::{GITHUB, GITHUB_LINE, GITHUB_PRINT, OTHER, OTHER_LINE, joined};
use text_entries::{Standing, TextCause, read_text};

// Ten lines, of which each but the first three names one more entry.
const LINES: [&[u8]; 15] = [
    b"ca: ",
    OTHER_LINE,
    b"\n@other: ",
    OTHER_LINE,
    b"\nca-blob: c3No\n",
    b"@other id: b\n",
    b"serial: 20-30\n",
    b"id: a\n",
    b"id-hex: 6123\n",
    b"key: ",
    GITHUB_LINE,
    b"\nkey-blob: AQ==\nhash: ",
    GITHUB_PRINT,
    b"\nhash: SHA1:",
    b"AAAAAAAAAAAAAAAAAAAAAAAAAAA",
];

#[test]
fn a_text(rt: HostRuntime) {
    let Some(text) = answered(&rt, joined(rt.alloc(), &LINES), AllocError) else {
        return;
    };
    let mut held: Revocations<Held> = Revocations::new(rt.alloc());
    let mut standing = Standing::new(rt.alloc(), 0);
    match read_text(rt.alloc(), &mut held, &mut standing, &text) {
        Ok(_) => {
            assert!(rt; size(&held) == 8);
            if let Some(names) = answered(&rt, standing.names().by_key(), AllocError) {
                assert!(rt; names.name(GITHUB).is_none() && names.name(b"").is_none());
            }
            if let Some(names) = answered(&rt, standing.names().by_fingerprint(), AllocError) {
                assert!(rt; names.name(OTHER).is_none() && names.name(&[0; 32]).is_none());
            }
        }
        Err(fault) => {
            assert!(rt; fault.cause == TextCause::Spec(SpecCause::NoMemory));
            // Those of the lines before are held: the first three have no entry.
            let before = fault.line.saturating_sub(4);
            assert!(rt; size(&held) == before as u128);
            ran_out(&rt);
        }
    }
}
