//! A list that is checked.

ghost use Rattle.std.specs.Prelude.{◌≡◌, false};

use crate::tests::answered::ran_out;
use crate::tests::buffer::Buffer;
use any_list::Lists;
use audit_lines::Refusal;
use byte_streams::{Sink, ToWrite};
use check_run::{Host, Loaded, Used, check_run};
use krl_arguments::Check;
use list_conditions::SshdUse;
use run_faults::Cause;
use run_output::Done;
use ssh_wire::Bytes;
use std::alloc::{AllocError, Global};
use std::process::Abort;
use test_fixtures::{GITHUB_LINE, OTHER_LINE};

// A list of version 1 that revokes the published key, with a signature.
const SIGNED: &[u8] = b"SSHKRL\n\0\0\0\0\x01\0\0\0\0\0\0\0\x01\0\0\0\0\0\0\0\0\
\0\0\0\0\0\0\0\0\0\0\0\0\0\0\0\0\
\x02\0\0\0\x37\0\0\0\x33\0\0\0\x0bssh-ed25519\0\0\0\x20\
\xe3\x2a\xaa\x79\x15\xce\xb9\xb4\x49\xd1\xba\x50\xea\x2a\x28\xbb\
\x1a\x6e\x01\xf9\x0b\xda\x24\x5a\x2d\x1d\x87\x69\x7d\x18\xa2\x65\
\x04\0\0\0\0\0\0\0\0";

// The output of the check.
const SAID: &[u8] = b"openssh: r.krl: it has a signature
version: p: a plain list has no version
- key: ssh-ed25519 AAAAC3NzaC1lZDI1NTE5AAAAIBERERERERERERERERERERERERERERERERERERERERER \
# SHA256:SQfC+vTbLURn9cTkVxIS8fGQ3FKNAJWeB0o139+gV4M
lost: p: 1 entry is not in r.krl
sshd: r.krl: the sshd of t uses no list
f:1: revoked: ssh-ed25519 SHA256:+DiY3wvvV6TuJJhbpZisF/zLDA0zPMSvHdkr4UvCOqU by its key
keep: f: 1 of 1 key is revoked, 0 lines are not read
";

// The objects of the same check.
const OBJECTS: &[u8] = b"{\"condition\":\"openssh\",\"passed\":false,\"list\":\"r.krl\",\
\"why\":\"it has a signature\"}
{\"condition\":\"empty\",\"passed\":true,\"list\":\"r.krl\"}
{\"condition\":\"slow\",\"passed\":true,\"list\":\"r.krl\",\"cas\":0,\"most\":4000}
{\"condition\":\"version\",\"passed\":false,\"list\":\"p\",\"why\":\"a plain list has no version\"}
{\"change\":\"removed\",\"key\":\"SHA256:SQfC+vTbLURn9cTkVxIS8fGQ3FKNAJWeB0o139+gV4M\"}
{\"condition\":\"lost\",\"passed\":false,\"list\":\"r.krl\",\"other\":\"p\",\"entries\":1}
{\"condition\":\"sshd\",\"passed\":false,\"list\":\"r.krl\",\"sshd\":\"t\",\
\"why\":\"it uses no list\"}
{\"file\":\"f\",\"line\":1,\"status\":\"revoked\",\"type\":\"ssh-ed25519\",\
\"fingerprint\":\"SHA256:+DiY3wvvV6TuJJhbpZisF/zLDA0zPMSvHdkr4UvCOqU\",\"comment\":\"\",\
\"reasons\":[{\"by\":\"key\"}]}
{\"condition\":\"keep\",\"passed\":false,\"file\":\"f\",\"keys\":1,\"revoked\":1,\"unread\":0}
{\"condition\":\"keep\",\"passed\":true,\"file\":\"g\",\"keys\":1,\"revoked\":0,\"unread\":0}
{\"status\":\"done\",\"passed\":false}
";

// The files: the list in `r.krl`, a plain list in `p`, the published key in `f`, and another one in
// other files.
#[derive(Drop)]
struct Shelf;

impl Lists for Shelf {
    ghost use Rattle.std.specs.Prelude.{None};

    ghost told = { λ _. None };

    fn read(&mut self, alloc: Global, name: &str) -> Result<Bytes, Cause> {
        let bytes = if name == "r.krl" { SIGNED } else { OTHER_LINE };
        match Vec::from_slice(alloc, bytes) {
            Ok(bytes) => Ok(Bytes::from_vec(bytes)),
            Err(_) => Err(Cause::NoMemory),
        }
    }
}

impl Host for Shelf {
    fn read_keys(
        &mut self,
        name: &str,
        text: &mut Vec<u8>,
    ) -> Result<Result<(), Refusal>, AllocError> {
        let line = if name == "f" { GITHUB_LINE } else { OTHER_LINE };
        text.extend_from_slice(line)?;
        Ok(Ok(()))
    }

    fn moment(&mut self) -> Option<u64> {
        None
    }
}

// The output that is wanted.
#[derive(Clone, Copy, PartialEq, Eq)]
enum Wanted {
    // Each condition that fails, in words.
    Words,
    // Each condition, as JSON.
    Objects,
    // The version of the list.
    Version,
}

// Checks the list beside a plain one, or prints its version. Says whether an allocation failed.
fn runs_out<W: Sink>(alloc: Global, wanted: Wanted, out: &mut W) -> Result<bool, AllocError>
    requires { W.has_failed out.old ≡ false }
{
    let task = Check {
        list: "r.krl",
        newer_than: Some("p"),
        superset_of: Some("p"),
        max_age: None,
        max_cas: None,
        sshd: Some("t"),
        keep: Vec::from_slice(alloc, &["f", "g"])?,
        canary: Vec::new(alloc),
        allow_empty: false,
        json: wanted == Wanted::Objects,
        names: Vec::new(alloc),
        print_version: wanted == Wanted::Version,
    };
    let loaded = Loaded {
        names: None,
        sshd: Some(Used {
            output: "t",
            found: SshdUse::Nothing,
        }),
    };
    match check_run(alloc, &task, loaded, &mut Shelf, out) {
        Ok(
            Done {
                fault: Some(stop),
                ..
            },
        ) => Ok(stop.cause == Cause::NoMemory),
        _ => Ok(false),
    }
}

// Whether all of a text is printed, or, where an allocation failed, a part of it.
fn prints(
    rt: &(impl AllocGlobal + Abort + Print),
    alloc: Global,
    wanted: Wanted,
    text: &[u8],
) -> bool {
    let mut said = Buffer::new();
    match runs_out(alloc, wanted, &mut ToWrite::new(&mut said)) {
        Ok(false) => said.text() == text,
        _ => {
            ran_out(rt);
            text.starts_with(said.text())
        }
    }
}

#[test]
fn each_condition_is_checked(rt: HostRuntime) {
    assert!(rt; prints(&rt, rt.alloc(), Wanted::Words, SAID));
}

#[test]
fn each_condition_is_an_object(rt: HostRuntime) {
    assert!(rt; prints(&rt, rt.alloc(), Wanted::Objects, OBJECTS));
}

#[test]
fn the_version_is_printed(rt: HostRuntime) {
    assert!(rt; prints(&rt, rt.alloc(), Wanted::Version, b"1\n"));
}
