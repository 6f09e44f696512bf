//! The rest of readers that give few bytes at a call, fail, or never end.

use crate::tests::pull::Step::{AtEnd, Byte, Rest, RestRefused, Taken};
use crate::tests::pull::{TEXT, meets_all, pull, text_of};
use ssh_wire::PullFault;
use std::alloc::{AllocError, Global};
use test_fixtures::Then;

// Whether the rest of a reader of the bytes, this far below the limit, is all of them, and nothing
// follows.
fn comes_whole(
    alloc: Global,
    bytes: &[u8],
    per_call: usize,
    past: u64,
) -> Result<bool, AllocError> {
    let steps = [
        Rest(bytes),
        Taken(bytes.len() as u64),
        AtEnd(Ok(true)),
        Rest(b""),
        Byte(Err(PullFault::EndsEarly)),
    ];
    let limit = past.saturating_add(bytes.len() as u64);
    let mut reader = pull(bytes, per_call, Then::Ends, limit);
    meets_all(&mut reader, alloc, &steps)
}

#[test]
fn the_rest_comes_whole(rt: HostRuntime) {
    let text = text_of(rt.alloc(), 131_073).expect(&rt, "there is memory");
    for size in [0, 1, 65_535, 65_536, 65_537, 131_072, 131_073] {
        let bytes = text.get(..size).expect(&rt, "the text is longer");
        for (per_call, past) in [(7, 0), (65_536, 1), (200_000, u64::MAX)] {
            let right = comes_whole(rt.alloc(), bytes, per_call, past).expect(
                &rt,
                "there is memory",
            );
            assert!(rt; right, "in case {size}");
        }
    }
}

// The reader's behaviour after the text, its limit, and the fault of its rest.
const REFUSED: [(Then, u64, PullFault); 5] = [
    // there is a byte past the limit
    (Then::Ends, 22, PullFault::TooLong),
    (Then::Fails, 22, PullFault::TooLong),
    (Then::Zeros(usize::MAX), 200_000, PullFault::TooLong),
    // the reader fails within the limit, and where the byte past it would be
    (Then::Fails, 23, PullFault::Read),
    (Then::Fails, 24, PullFault::Read),
];

#[test]
fn a_rest_that_is_refused_is_answered_again(rt: HostRuntime) {
    for (i, (then, limit, fault)) in REFUSED.iter().enumerate() {
        let fault = *fault;
        let steps = [
            RestRefused(fault),
            Byte(Err(fault)),
            RestRefused(fault),
            Taken(0),
        ];
        let mut reader = pull(TEXT, 7, *then, *limit);
        let right = meets_all(&mut reader, rt.alloc(), &steps).expect(&rt, "there is memory");
        assert!(rt; right, "in case {i}");
    }
}
