//! Messages whose ends may be missing.

use crate::tests::lines::{ACCEPTED, CA, CERT, SESSION, joined};
use login_lines::{LoginFault, login_of};
use std::alloc::{AllocError, Global};

// The sizes of messages around those at which sshd and syslog cut them.
const SIZES: [(usize, bool); 8] = [
    (499, false),
    (500, true),
    (501, true),
    (502, false),
    (1020, false),
    (1021, true),
    (1022, true),
    (4096, true),
];

// A line whose message has this size.
fn sized(alloc: Global, prefix: &str, size: usize) -> Result<Vec<u8>, AllocError> {
    let end = joined(alloc, " (serial 1", &[CA])?;
    let mut line = joined(alloc, prefix, &[ACCEPTED, CERT])?;
    let padded = prefix.len().saturating_add(size).saturating_sub(end.len());
    line.resize(padded, b'x')?;
    line.extend_from_slice(&end)?;
    Ok(line)
}

// Whether a line is cut, or otherwise has a login.
fn is_cut(line: &[u8]) -> Option<bool> {
    match login_of(line) {
        Ok(Some(_)) => Some(false),
        Err(LoginFault::Cut) => Some(true),
        _ => None,
    }
}

#[test]
fn sizes(rt: HostRuntime) {
    for (size, wanted) in SIZES {
        for prefix in ["", SESSION] {
            let line = sized(rt.alloc(), prefix, size).expect(&rt, "there is memory");
            assert!(rt; is_cut(&line) == Some(wanted), "at {size} bytes");
        }
    }
}
