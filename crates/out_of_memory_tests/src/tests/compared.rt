//! Two lists that are compared.

ghost use Rattle.std.specs.Prelude.{◌≡◌, false};

use crate::tests::answered::ran_out;
use crate::tests::buffer::Buffer;
use any_list::Lists;
use byte_streams::{Sink, ToWrite};
use run_faults::{Cause, RunFault};
use show_run::{Comparison, diff_run};
use ssh_wire::Bytes;
use std::alloc::{AllocError, Global};
use test_fixtures::{FIVE, GITHUB_LINE, list_of};

// A plain list, and a list of serial number 5 of all authorities.
#[derive(Drop)]
struct Pair;

impl Lists for Pair {
    ghost use Rattle.std.specs.Prelude.{None};

    ghost told = { λ _. None };

    fn read(&mut self, alloc: Global, name: &str) -> Result<Bytes, Cause> {
        match bytes_of(alloc, name) {
            Ok(bytes) => Ok(Bytes::from_vec(bytes)),
            Err(_) => Err(Cause::NoMemory),
        }
    }
}

fn bytes_of(alloc: Global, name: &str) -> Result<Vec<u8>, AllocError> {
    if name == "plain" {
        Vec::from_slice(alloc, GITHUB_LINE)
    } else {
        list_of(alloc, FIVE)
    }
}

const TEXT: &[u8] = b"  ca: all\n+ serial: 5
- key: ssh-ed25519 AAAAC3NzaC1lZDI1NTE5AAAAIOMqqnkVzrm0SdG6UOoqKLsabgH5C9okWi0dh2l9GKJl \
# SHA256:+DiY3wvvV6TuJJhbpZisF/zLDA0zPMSvHdkr4UvCOqU
";

const OBJECTS: &[u8] = b"{\"change\":\"added\",\"ca\":\"all\",\"serial\":[\"5\",\"5\"]}
{\"change\":\"removed\",\"key\":\"SHA256:+DiY3wvvV6TuJJhbpZisF/zLDA0zPMSvHdkr4UvCOqU\"}
{\"status\":\"done\",\
\"added\":{\"cas\":1,\"serials\":\"1\",\"ids\":0,\"keys\":0,\"hashes\":0},\
\"removed\":{\"cas\":0,\"serials\":\"0\",\"ids\":0,\"keys\":1,\"hashes\":0}}
";

// Compares both lists.
fn compared<W: Sink>(alloc: Global, json: bool, out: &mut W) -> Option<RunFault<'static>>
    requires { W.has_failed out.old ≡ false }
{
    let comparison = Comparison {
        old: "plain",
        new: "five",
        json,
        names: None,
    };
    diff_run(alloc, &mut Pair, comparison, out).fault
}

#[test]
fn each_change_is_printed(rt: HostRuntime) {
    for (json, text) in [(false, TEXT), (true, OBJECTS)] {
        let mut said = Buffer::new();
        match compared(rt.alloc(), json, &mut ToWrite::new(&mut said)) {
            None => assert!(rt; said.text() == text),
            Some(stop) => {
                // The output before memory ran out is right.
                assert!(rt; stop.cause == Cause::NoMemory && text.starts_with(said.text()));
                return ran_out(&rt);
            }
        }
    }
}
