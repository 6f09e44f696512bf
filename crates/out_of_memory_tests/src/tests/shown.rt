//! A list that is shown.

ghost use Rattle.std.specs.Prelude.{◌≡◌, false};

use crate::tests::answered::ran_out;
use crate::tests::buffer::Buffer;
use any_list::Lists;
use byte_streams::{Sink, ToWrite};
use list_text::Form;
use run_faults::{Cause, RunFault};
use show_run::show_run;
use ssh_wire::Bytes;
use std::alloc::Global;

// A list of version 1 with a key ID of all authorities that is no text, the published key and its
// SHA-256.
const LIST: &[u8] = b"SSHKRL\n\0\0\0\0\x01\0\0\0\0\0\0\0\x01\0\0\0\0\0\0\0\0\
\0\0\0\0\0\0\0\0\0\0\0\0\0\0\0\x01c\
\x01\0\0\0\x13\0\0\0\0\0\0\0\0\x23\0\0\0\x06\0\0\0\x02a#\
\x02\0\0\0\x37\0\0\0\x33\0\0\0\x0bssh-ed25519\0\0\0\x20\
\xe3\x2a\xaa\x79\x15\xce\xb9\xb4\x49\xd1\xba\x50\xea\x2a\x28\xbb\
\x1a\x6e\x01\xf9\x0b\xda\x24\x5a\x2d\x1d\x87\x69\x7d\x18\xa2\x65\
\x05\0\0\0\x24\0\0\0\x20\
\xf8\x38\x98\xdf\x0b\xef\x57\xa4\xee\x24\x98\x5b\xa5\x98\xac\x17\
\xfc\xcb\x0c\x0d\x33\x3c\xc4\xaf\x1d\xd9\x2b\xe1\x4b\xc2\x3a\xa5";

const TEXT: &[u8] = b"# r.krl: version 1, 1970-01-01T00:00:00Z, c
ca: all
id-hex: 6123
key: ssh-ed25519 AAAAC3NzaC1lZDI1NTE5AAAAIOMqqnkVzrm0SdG6UOoqKLsabgH5C9okWi0dh2l9GKJl \
# SHA256:+DiY3wvvV6TuJJhbpZisF/zLDA0zPMSvHdkr4UvCOqU
hash: SHA256:+DiY3wvvV6TuJJhbpZisF/zLDA0zPMSvHdkr4UvCOqU
";

const OBJECTS: &[u8] =
    b"{\"list\":\"r.krl\",\"version\":\"1\",\"generated\":\"1970-01-01T00:00:00Z\",\
\"comment\":\"c\"}
{\"ca\":\"all\",\"id\":\"a#\"}
{\"key\":\"SHA256:+DiY3wvvV6TuJJhbpZisF/zLDA0zPMSvHdkr4UvCOqU\"}
{\"hash\":\"SHA256:+DiY3wvvV6TuJJhbpZisF/zLDA0zPMSvHdkr4UvCOqU\"}
{\"status\":\"done\",\"lists\":1,\"cas\":1,\"serials\":\"0\",\"ids\":1,\"keys\":1,\"hashes\":1}
";

// The list in memory, under any name.
#[derive(Drop)]
struct Shelf;

impl Lists for Shelf {
    ghost use Rattle.std.specs.Prelude.{None};

    ghost told = { λ _. None };

    fn read(&mut self, alloc: Global, _name: &str) -> Result<Bytes, Cause> {
        match Vec::from_slice(alloc, LIST) {
            Ok(bytes) => Ok(Bytes::from_vec(bytes)),
            Err(_) => Err(Cause::NoMemory),
        }
    }
}

// Shows the list in a form.
fn shown<W: Sink>(alloc: Global, form: Form<'_>, out: &mut W) -> Option<RunFault<'static>>
    requires { W.has_failed out.old ≡ false }
{
    show_run(alloc, &mut Shelf, &["r.krl"], form, out).fault
}

#[test]
fn each_line_is_shown(rt: HostRuntime) {
    for (form, text) in [(Form::Text(None), TEXT), (Form::Json(None), OBJECTS)] {
        let mut said = Buffer::new();
        match shown(rt.alloc(), form, &mut ToWrite::new(&mut said)) {
            None => assert!(rt; said.text() == text),
            Some(stop) => {
                // The output before memory ran out is right.
                assert!(rt; stop.cause == Cause::NoMemory && text.starts_with(said.text()));
                return ran_out(&rt);
            }
        }
    }
}
