//! Files and outputs that give or take few bytes at a call, and fail.

use crate::tests::runs::{
    CLOSED, File, ONE, Ran, Said, all_named, asked, joined, listed, named, says,
};
use byte_streams::FromRead;
use key_listing::ListMode;
use key_text::Hash;
use run_faults::{FileFault, load};
use ssh_wire::Bytes;
use std::alloc::Global;
use std::process::Abort;
use test_fixtures::{GITHUB_LINE, Giver, Taker, Then};

// Queries the list that names the published key for the files, with a device as the output.
fn asked_of_key(rt: &impl Abort, alloc: Global, files: &[File], device: Taker) -> Ran {
    let list = joined(rt, alloc, ONE);
    let files = all_named(rt, alloc, files);
    asked(
        rt,
        alloc,
        Giver::whole(&list),
        false,
        files.as_slice(),
        device,
    )
}

// The content of the file `a` that is loaded from a device.
fn loaded(rt: &impl Abort, alloc: Global, device: Giver<'_>) -> Result<Bytes, FileFault> {
    let (file, _) = load(alloc, "a", FromRead::new(device));
    assert!(rt; file.name == "a");
    file.content
}

// In pieces of this length, loading the line of the key takes this number of calls, all of which
// are made.
fn takes(rt: &impl Abort, alloc: Global, per_call: usize, calls: usize) {
    for calls_before_failure in 0..90 {
        let mut device = Giver::new(GITHUB_LINE, per_call);
        device.calls_before_failure = calls_before_failure;
        let right = match loaded(rt, alloc, device) {
            Ok(content) => calls_before_failure >= calls && content.as_slice() == GITHUB_LINE,
            Err(fault) => calls_before_failure < calls && fault == FileFault::Read,
        };
        assert!(rt; right, "{per_call} {calls_before_failure}");
    }
}

#[test]
fn loaded_in_pieces(rt: HostRuntime) {
    // the last call gives no byte: it reports the end
    for (per_call, calls) in [(1, 81), (3, 28), (7, 13), (100, 2)] {
        takes(&rt, rt.alloc(), per_call, calls);
    }
}

// The result of loading a file of this many zero bytes: the number of bytes loaded.
fn zeros(rt: &impl Abort, alloc: Global, count: usize) -> Result<usize, FileFault> {
    let mut device = Giver::whole(b"");
    device.then = Then::Zeros(count);
    let bytes = loaded(rt, alloc, device)?;
    Ok(bytes.as_slice().len())
}

#[test]
fn loaded_up_to_the_limit(rt: HostRuntime) {
    for (count, expected) in [
        (0, Ok(0)),
        (16_777_216, Ok(16_777_216)),
        (16_777_217, Err(FileFault::TooLong)),
        // an endless reader
        (usize::MAX, Err(FileFault::TooLong)),
    ] {
        assert!(rt;
            zeros(&rt, rt.alloc(), count) == expected,
            "in case {count}"
        );
    }
}

// A file of the published key.
const KEY: File<'static> = ("g.pub", Some(&[GITHUB_LINE]));

// Queries the list that names the key, with the byte at a position set to zero. Each call gives one
// byte, until one fails.
fn asked_in_part(rt: &impl Abort, alloc: Global, place: usize, calls: usize) -> Ran {
    let mut bytes = joined(rt, alloc, ONE);
    if let Some(byte) = bytes.get_mut(place) {
        *byte = 0;
    }
    let files = all_named(rt, alloc, &[KEY]);
    let mut krl = Giver::new(&bytes, 1);
    krl.calls_before_failure = calls;
    let device = Taker::new(alloc, 100, 10);
    asked(rt, alloc, krl, false, files.as_slice(), device)
}

#[test]
fn the_list_fails(rt: HostRuntime) {
    let read = "ssh-keygen: r.krl: krl 13 Read";
    let magic = "ssh-keygen: r.krl: krl 1 Magic";
    // the position of the zero byte, the number of calls before the failure, and the output; the
    // last call gives no byte, since the list is at its end
    let rows: [(usize, usize, Said); 6] = [
        (200, 0, (b"", 255, read)),
        (200, 44, (b"", 255, read)),
        (200, 104, (b"", 255, read)),
        (200, 105, (b"g.pub: REVOKED\n", 1, "")),
        (0, 7, (b"", 255, read)),
        (0, 8, (b"", 255, magic)),
    ];
    for (i, (place, calls, said)) in rows.iter().enumerate() {
        let ran = asked_in_part(&rt, rt.alloc(), *place, *calls);
        says(&rt, i, &ran, *said);
    }
}

const NINE: &str = "ssh-keygen: output: output 1 Write after 9 bytes";

const TWELVE: &str = "ssh-keygen: output: output 1 Write after 12 bytes";

// The number of calls before the failure, the files, and the output of the run.
const SAID: [(usize, &[File<'static>], Said<'static>); 5] = [
    (
        0,
        &[KEY],
        (b"", 255, "ssh-keygen: output: output 1 Write after 0 bytes"),
    ),
    (3, &[KEY], (b"g.pub: RE", 255, NINE)),
    (4, &[KEY, CLOSED], (b"g.pub: REVOK", 255, TWELVE)),
    (5, &[KEY], (b"g.pub: REVOKED\n", 1, "")),
    (
        5,
        &[KEY, CLOSED],
        (b"g.pub: REVOKED\n", 255, "ssh-keygen: none: file 1 Open"),
    ),
];

#[test]
fn the_output_fails(rt: HostRuntime) {
    for (i, (calls, files, said)) in SAID.iter().enumerate() {
        let device = Taker::new(rt.alloc(), 3, *calls);
        let ran = asked_of_key(&rt, rt.alloc(), *files, device);
        says(&rt, i, &ran, *said);
    }
}

// Lists the keys of a file. Each call takes three bytes, until one fails.
fn listed_in_part(rt: &impl Abort, alloc: Global, calls: usize, file: &File) -> Ran {
    let file = named(rt, alloc, file);
    let device = Taker::new(alloc, 3, calls);
    listed(rt, alloc, ListMode::Keys, Hash::Sha256, &file, 0, device)
}

#[test]
fn the_output_of_a_listing_fails(rt: HostRuntime) {
    let six = "ssh-keygen: output: output 1 Write after 6 bytes";
    says(
        &rt,
        0,
        &listed_in_part(&rt, rt.alloc(), 2, &KEY),
        (b"256 SH", 255, six),
    );
    // if nothing is written, nothing fails
    let empty = ("k", Some([].as_slice()));
    let none = "ssh-keygen: k: file 5 NoKeys";
    says(
        &rt,
        1,
        &listed_in_part(&rt, rt.alloc(), 0, &empty),
        (b"", 255, none),
    );
}
