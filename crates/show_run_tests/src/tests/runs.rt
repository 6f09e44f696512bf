//! Whole runs, over a few lists in memory.

use any_list::Lists;
use byte_streams::ToWrite;
use krl_types::KrlFault;
use list_text::Form;
use run_faults::{Cause, FileFault};
use show_run::show_run;
use ssh_wire::Bytes;
use std::alloc::Global;
use test_fixtures::{BITMAP, FIVE, GITHUB_LINE, ID_A, KEY_SECTION, SHA256_SECTION, Taker, list_of};

// Lists in memory.
#[derive(Drop)]
pub struct Shelf;

impl Lists for Shelf {
    ghost use Rattle.std.specs.Prelude.{None};

    ghost told = { λ _. None };

    fn read(&mut self, alloc: Global, name: &str) -> Result<Bytes, Cause> {
        let made = match name {
            "five" => list_of(alloc, FIVE),
            "odd" => list_of(alloc, BITMAP),
            "id" => list_of(alloc, ID_A),
            "key" => list_of(alloc, KEY_SECTION),
            "hash" => list_of(alloc, SHA256_SECTION),
            "plain" => Vec::from_slice(alloc, GITHUB_LINE),
            "short" => Vec::from_slice(alloc, b"SSHKRL\n\0"),
            "said" => Vec::from_slice(alloc, SAID),
            "hundred" => list_of(alloc, HUNDRED),
            "hundreds" => list_of(alloc, HUNDREDS),
            "pieces" => list_of(alloc, PIECES),
            "own" => list_of(alloc, OWN),
            "other" => list_of(alloc, OTHER_CA),
            "sha1" => list_of(alloc, SHA1_SECTION),
            _ => return Err(Cause::File(FileFault::Open)),
        };
        match made {
            Ok(bytes) => Ok(Bytes::from_vec(bytes)),
            Err(_) => Err(Cause::NoMemory),
        }
    }
}

// A list of version 7 with the comment `a`, a line feed and `b`.
const SAID: &[u8] = b"SSHKRL\n\0\0\0\0\x01\0\0\0\0\0\0\0\x07\0\0\0\0\0\0\0\0\
\0\0\0\0\0\0\0\0\0\0\0\0\0\0\0\x03a\nb";

// Serial number 100 of all authorities; 100 and 101, as a range and one by one.
const HUNDRED: &[u8] = b"\x01\0\0\0\x15\0\0\0\0\0\0\0\0\x20\0\0\0\x08\0\0\0\0\0\0\0\x64";

const HUNDREDS: &[u8] = b"\x01\0\0\0\x1d\0\0\0\0\0\0\0\0\x21\0\0\0\x10\0\0\0\0\0\0\0\x64\
\0\0\0\0\0\0\0\x65";

const PIECES: &[u8] = b"\x01\0\0\0\x1d\0\0\0\0\0\0\0\0\x20\0\0\0\x10\0\0\0\0\0\0\0\x64\
\0\0\0\0\0\0\0\x65";

// Serial number 7 and key ID `a` of the authority `x`, and those of `y`.
const OWN: &[u8] = b"\x01\0\0\0\x20\0\0\0\x01x\0\0\0\0\x20\0\0\0\x08\0\0\0\0\0\0\0\x07\
\x23\0\0\0\x05\0\0\0\x01a";

const OTHER_CA: &[u8] = b"\x01\0\0\0\x20\0\0\0\x01y\0\0\0\0\x20\0\0\0\x08\0\0\0\0\0\0\0\x07\
\x23\0\0\0\x05\0\0\0\x01a";

// The section of a SHA-1 of zero bytes.
const SHA1_SECTION: &[u8] = b"\x03\0\0\0\x18\0\0\0\x14\0\0\0\0\0\0\0\0\0\0\0\0\0\0\0\0\0\0\0\0";

// The form of some lists, the text that is printed, the status, and the name and the cause of the
// fault.
type Row = (
    Form<'static>,
    &'static [&'static str],
    &'static [u8],
    u8,
    Option<(&'static str, Cause)>,
);

const ROWS: [Row; 11] = [
    (
        Form::Text(None),
        &["five"],
        b"# five: version 1, 1970-01-01T00:00:00Z\nca: all\nserial: 5\n",
        0,
        None,
    ),
    // Several lists, one after the other.
    (
        Form::Text(None),
        &["odd", "id"],
        b"# odd: version 1, 1970-01-01T00:00:00Z
ca: all\nserial: 1\nserial: 3\nserial: 5\nserial: 7
# id: version 1, 1970-01-01T00:00:00Z\nca: all\nid: a\n",
        0,
        None,
    ),
    (
        Form::Text(None),
        &["key", "plain"],
        b"# key: version 1, 1970-01-01T00:00:00Z
key: ssh-ed25519 AAAAC3NzaC1lZDI1NTE5AAAAIOMqqnkVzrm0SdG6UOoqKLsabgH5C9okWi0dh2l9GKJl \
# SHA256:+DiY3wvvV6TuJJhbpZisF/zLDA0zPMSvHdkr4UvCOqU
# plain: a plain list
key: ssh-ed25519 AAAAC3NzaC1lZDI1NTE5AAAAIOMqqnkVzrm0SdG6UOoqKLsabgH5C9okWi0dh2l9GKJl \
# SHA256:+DiY3wvvV6TuJJhbpZisF/zLDA0zPMSvHdkr4UvCOqU\n",
        0,
        None,
    ),
    (
        Form::Text(None),
        &["said", "hash"],
        b"# said: version 7, 1970-01-01T00:00:00Z, a\\x0ab
# hash: version 1, 1970-01-01T00:00:00Z
hash: SHA256:+DiY3wvvV6TuJJhbpZisF/zLDA0zPMSvHdkr4UvCOqU\n",
        0,
        None,
    ),
    (
        Form::Json(None),
        &["said", "odd", "plain"],
        b"{\"list\":\"said\",\"version\":\"7\",\"generated\":\"1970-01-01T00:00:00Z\",\
\"comment\":\"a\\nb\"}
{\"list\":\"odd\",\"version\":\"1\",\"generated\":\"1970-01-01T00:00:00Z\",\"comment\":\"\"}
{\"ca\":\"all\",\"serial\":[\"1\",\"1\"]}
{\"ca\":\"all\",\"serial\":[\"3\",\"3\"]}
{\"ca\":\"all\",\"serial\":[\"5\",\"5\"]}
{\"ca\":\"all\",\"serial\":[\"7\",\"7\"]}
{\"list\":\"plain\"}
{\"key\":\"SHA256:+DiY3wvvV6TuJJhbpZisF/zLDA0zPMSvHdkr4UvCOqU\"}
{\"status\":\"done\",\"lists\":3,\"cas\":1,\"serials\":\"4\",\"ids\":0,\"keys\":1,\"hashes\":0}\n",
        0,
        None,
    ),
    // Lists without their names.
    (
        Form::Unnamed(None),
        &["said", "plain"],
        b"# version 7, 1970-01-01T00:00:00Z, a\\x0ab
key: ssh-ed25519 AAAAC3NzaC1lZDI1NTE5AAAAIOMqqnkVzrm0SdG6UOoqKLsabgH5C9okWi0dh2l9GKJl \
# SHA256:+DiY3wvvV6TuJJhbpZisF/zLDA0zPMSvHdkr4UvCOqU\n",
        0,
        None,
    ),
    (
        Form::JsonUnnamed(None),
        &["said", "plain"],
        b"{\"version\":\"7\",\"generated\":\"1970-01-01T00:00:00Z\",\"comment\":\"a\\nb\"}
{\"key\":\"SHA256:+DiY3wvvV6TuJJhbpZisF/zLDA0zPMSvHdkr4UvCOqU\"}
{\"status\":\"done\",\"lists\":2,\"cas\":0,\"serials\":\"0\",\"ids\":0,\"keys\":1,\"hashes\":0}\n",
        0,
        None,
    ),
    (Form::Text(None), &[], b"", 0, None),
    // Nothing is printed where one of them is not read.
    (
        Form::Text(None),
        &["five", "gone", "short"],
        b"",
        255,
        Some(("gone", Cause::File(FileFault::Open))),
    ),
    (
        Form::Json(None),
        &["five", "short"],
        b"",
        255,
        Some(("short", Cause::Krl(KrlFault::EndsEarly))),
    ),
    (
        Form::Text(None),
        &["short", "gone"],
        b"",
        255,
        Some(("short", Cause::Krl(KrlFault::EndsEarly))),
    ),
];

#[test]
fn each_row(rt: HostRuntime) {
    for (i, (form, names, said, status, wanted)) in ROWS.iter().enumerate() {
        let mut taker = Taker::whole(rt.alloc());
        let mut out = ToWrite::new(&mut taker);
        let done = show_run(rt.alloc(), &mut Shelf, names, *form, &mut out);
        let right = match (&done.fault, wanted) {
            (Some(fault), Some((name, cause))) => fault.name == *name && fault.cause == *cause,
            (None, None) => true,
            _ => false,
        };
        assert!(rt; right, "row {i}");
        assert_eq!(rt; done.status, *status, "row {i}");
        assert_eq!(rt; taker.taken.as_slice(), *said, "row {i}");
    }
}

#[test]
fn an_output_that_fails_ends_a_run(rt: HostRuntime) {
    let mut broken = Taker::new(rt.alloc(), 9, 0);
    let mut lost = ToWrite::new(&mut broken);
    let done = show_run(
        rt.alloc(),
        &mut Shelf,
        &["five"],
        Form::Text(None),
        &mut lost,
    );
    assert!(rt; done.status == 255);
}
