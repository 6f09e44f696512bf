//! Lists in either form.

use any_list::read_list;
use key_text::LineFault;
use krl_types::KrlFault;
use run_faults::{Cause, KeyCause};
use test_fixtures::{GITHUB_LINE, HEADER};

// The bytes of a list, and how many keys it revokes, or the number of its line and why it is
// refused.
const LISTS: [(&[u8], Result<usize, (Option<u64>, Cause)>); 5] = [
    (&HEADER, Ok(0)),
    (GITHUB_LINE, Ok(1)),
    (b"", Ok(0)),
    (b"SSHKRL\n\0", Err((None, Cause::Krl(KrlFault::EndsEarly)))),
    (
        b"# c\nSSHKRL\n",
        Err((Some(2), Cause::Key(KeyCause::Line(LineFault::NoKey)))),
    ),
];

#[test]
fn either_form(rt: HostRuntime) {
    let alloc = rt.alloc();
    for (i, (bytes, wanted)) in LISTS.iter().enumerate() {
        let right = match (read_list(alloc, "l", bytes), wanted) {
            (Ok(list), Ok(keys)) => list.name == "l" && list.revocations.keys() == *keys,
            (Err(fault), Err((line, cause))) => {
                fault.name == "l" && fault.line == *line && fault.cause == *cause
            }
            _ => false,
        };
        assert!(rt; right, "in case {i}");
    }
}
