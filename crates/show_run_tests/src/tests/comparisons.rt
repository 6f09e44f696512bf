//! Whole comparisons, over a few lists in memory.

use crate::tests::runs::Shelf;
use byte_streams::ToWrite;
use krl_types::KrlFault;
use run_faults::{Cause, FileFault};
use show_run::{Comparison, diff_run};
use test_fixtures::Taker;

// The names of two lists, the text that is printed, and the status.
const ROWS: [(&str, &str, &str, u8); 12] = [
    ("hundreds", "hundred", "  ca: all\n- serial: 101\n", 1),
    ("hundred", "hundreds", "  ca: all\n+ serial: 101\n", 1),
    // Only the named entries count, not how they are cut.
    ("pieces", "hundreds", "", 0),
    ("five", "five", "", 0),
    // Numbers within others, and other ones.
    (
        "odd",
        "five",
        "  ca: all\n- serial: 1\n- serial: 3\n- serial: 7\n",
        1,
    ),
    (
        "five",
        "id",
        "  ca: all\n+ id: a\n  ca: all\n- serial: 5\n",
        1,
    ),
    // An authority that only one side has.
    (
        "own",
        "other",
        "  ca-blob: eQ==\n+ serial: 7\n+ id: a\n  ca-blob: eA==\n- serial: 7\n- id: a\n",
        1,
    ),
    (
        "id",
        "own",
        "  ca-blob: eA==\n+ serial: 7\n+ id: a\n  ca: all\n- id: a\n",
        1,
    ),
    // A key, in a list of each form.
    ("key", "plain", "", 0),
    ("key", "hash", KEY_AND_HASH, 1),
    ("hash", "sha1", HASHES, 1),
    (
        "said",
        "sha1",
        "+ hash: SHA1:AAAAAAAAAAAAAAAAAAAAAAAAAAA\n",
        1,
    ),
];

const KEY_AND_HASH: &str = "\
+ hash: SHA256:+DiY3wvvV6TuJJhbpZisF/zLDA0zPMSvHdkr4UvCOqU
- key: ssh-ed25519 AAAAC3NzaC1lZDI1NTE5AAAAIOMqqnkVzrm0SdG6UOoqKLsabgH5C9okWi0dh2l9GKJl \
# SHA256:+DiY3wvvV6TuJJhbpZisF/zLDA0zPMSvHdkr4UvCOqU
";

const HASHES: &str = "\
+ hash: SHA1:AAAAAAAAAAAAAAAAAAAAAAAAAAA
- hash: SHA256:+DiY3wvvV6TuJJhbpZisF/zLDA0zPMSvHdkr4UvCOqU
";

#[test]
fn each_comparison(rt: HostRuntime) {
    for (i, (old, new, said, status)) in ROWS.iter().enumerate() {
        let comparison = Comparison {
            old,
            new,
            json: false,
            names: None,
        };
        let mut taker = Taker::whole(rt.alloc());
        let done = diff_run(
            rt.alloc(),
            &mut Shelf,
            comparison,
            &mut ToWrite::new(&mut taker),
        );
        assert!(rt; done.fault.is_none(), "row {i}");
        assert_eq!(rt; done.status, *status, "row {i}");
        assert_eq!(rt; taker.taken.as_slice(), said.as_bytes(), "row {i}");
    }
}

#[test]
fn comparisons_as_json(rt: HostRuntime) {
    let rows = [
        ("own", "odd", OBJECTS, 1),
        (
            "five",
            "five",
            "{\"status\":\"done\",\
\"added\":{\"cas\":0,\"serials\":\"0\",\"ids\":0,\"keys\":0,\"hashes\":0},\
\"removed\":{\"cas\":0,\"serials\":\"0\",\"ids\":0,\"keys\":0,\"hashes\":0}}\n",
            0,
        ),
    ];
    for (i, (old, new, said, status)) in rows.iter().enumerate() {
        let comparison = Comparison {
            old,
            new,
            json: true,
            names: None,
        };
        let mut taker = Taker::whole(rt.alloc());
        let done = diff_run(
            rt.alloc(),
            &mut Shelf,
            comparison,
            &mut ToWrite::new(&mut taker),
        );
        assert!(rt; done.fault.is_none(), "row {i}");
        assert_eq!(rt; done.status, *status, "row {i}");
        assert_eq!(rt; taker.taken.as_slice(), said.as_bytes(), "row {i}");
    }
}

const OBJECTS: &str = "\
{\"change\":\"added\",\"ca\":\"all\",\"serial\":[\"1\",\"1\"]}
{\"change\":\"added\",\"ca\":\"all\",\"serial\":[\"3\",\"3\"]}
{\"change\":\"added\",\"ca\":\"all\",\"serial\":[\"5\",\"5\"]}
{\"change\":\"added\",\"ca\":\"all\",\"serial\":[\"7\",\"7\"]}
{\"change\":\"removed\",\"ca\":\"SHA256:LXEWQrcmsEQBYnyp+6wy9chTD7GQPMTbAiWHF5IaSIE\",\
\"serial\":[\"7\",\"7\"]}
{\"change\":\"removed\",\"ca\":\"SHA256:LXEWQrcmsEQBYnyp+6wy9chTD7GQPMTbAiWHF5IaSIE\",\"id\":\"a\"}
{\"status\":\"done\",\
\"added\":{\"cas\":1,\"serials\":\"4\",\"ids\":0,\"keys\":0,\"hashes\":0},\
\"removed\":{\"cas\":1,\"serials\":\"1\",\"ids\":1,\"keys\":0,\"hashes\":0}}
";

// Nothing is printed where one of the lists is not read. The old one is read first.
#[test]
fn lists_that_are_not_read(rt: HostRuntime) {
    let rows = [
        ("five", "gone", "gone", Cause::File(FileFault::Open)),
        ("gone", "short", "gone", Cause::File(FileFault::Open)),
        ("five", "short", "short", Cause::Krl(KrlFault::EndsEarly)),
        ("short", "gone", "short", Cause::Krl(KrlFault::EndsEarly)),
    ];
    for (i, (old, new, name, cause)) in rows.iter().enumerate() {
        for json in [false, true] {
            let comparison = Comparison {
                old,
                new,
                json,
                names: None,
            };
            let mut taker = Taker::whole(rt.alloc());
            let done = diff_run(
                rt.alloc(),
                &mut Shelf,
                comparison,
                &mut ToWrite::new(&mut taker),
            );
            let right = match &done.fault {
                Some(fault) => fault.name == *name && fault.cause == *cause,
                None => false,
            };
            assert!(rt; right && done.status == 255, "row {i}");
            assert!(rt; taker.taken.is_empty(), "row {i}");
        }
    }
}

#[test]
fn an_output_that_fails_ends_a_comparison(rt: HostRuntime) {
    let comparison = Comparison {
        old: "five",
        new: "own",
        json: false,
        names: None,
    };
    let mut broken = Taker::new(rt.alloc(), 9, 0);
    let done = diff_run(
        rt.alloc(),
        &mut Shelf,
        comparison,
        &mut ToWrite::new(&mut broken),
    );
    assert!(rt; done.status == 255);
}
