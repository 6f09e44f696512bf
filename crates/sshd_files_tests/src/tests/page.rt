//! The caller of the page.

use crate::tests::printed::OLD;
use sshd_files::{SshdFileKind, files_of, settings_of, users_of};
use std::alloc::{AllocError, Global};
use std::test::Fail;

/// How many files with keys sshd reads, by what `sshd -T` and `getent passwd` print. `None` if
/// either text is not what they print.
fn key_files(alloc: Global, printed: &[u8], users: &[u8]) -> Result<Option<usize>, AllocError> {
    let Ok(settings) = settings_of(alloc, printed)? else {
        return Ok(None);
    };
    let Ok(users) = users_of(alloc, users)? else {
        return Ok(None);
    };
    let Ok(files) = files_of(alloc, &[settings], &users, false)? else {
        return Ok(None);
    };
    Ok(Some(
        files
            .iter()
            .filter(|file| file.kind == SshdFileKind::Keys)
            .count(),
    ))
}

#[test]
fn the_caller_of_the_page(rt: HostRuntime) -> Result<(), Fail> {
    let alloc = rt.alloc();
    let users = b"root:x:0:0:root:/root:/bin/bash\nbob:x:1000:1000::/home/bob:/bin/sh\n";
    assert!(rt; key_files(alloc, OLD, users)? == Some(6));
    assert!(rt; key_files(alloc, OLD, b"root:x:0:0:root:/root\n")?.is_none());
    assert!(rt; key_files(alloc, b"port 22\n", users)?.is_none());
    Ok(())
}
