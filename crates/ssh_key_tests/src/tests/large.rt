//! Inputs that exceed every page and limit, with ample memory: none fails because of its size.

use crate::tests::made::{Container, FIELDS, armoured, is_read};
use base64::engine::general_purpose::STANDARD;
use key_text::read_line;
use ssh_key::{plain_blob, read_key};
use std::alloc::{AllocError, Global};
use test_fixtures::{GITHUB, PUBLISHED, joined, strings};

// A security key whose application has this length.
fn device_key(alloc: Global, size: usize) -> Result<Vec<u8>, AllocError> {
    let application = vec![in alloc; b'x'; size]?;
    strings(
        alloc,
        &[b"sk-ssh-ed25519@openssh.com", &PUBLISHED, &application],
    )
}

// Whether the line gives this key and this comment.
fn gives(alloc: Global, text: &[u8], blob: &[u8], comment: &[u8]) -> bool {
    match read_line(alloc, text) {
        Ok(line) => line.blob.as_slice() == blob && line.comment == comment,
        Err(_) => false,
    }
}

// Whether the line of a key and a comment of this many bytes is read.
fn reads_line(alloc: Global, application: usize, comment: usize) -> Result<bool, AllocError> {
    let blob = device_key(alloc, application)?;
    let comment = vec![in alloc; b'c'; comment]?;
    let base64 = STANDARD.encode(alloc, &blob)?;
    let parts = [
        b"sk-ssh-ed25519@openssh.com ",
        base64.as_bytes(),
        b" ",
        &comment,
    ];
    let text = joined(alloc, &parts)?;
    Ok(gives(alloc, &text, &blob, &comment))
}

// A line may have a key of any length: if the key is too long, the fault is that of the key, not of
// the line.
#[test]
fn lines(rt: HostRuntime) {
    for size in [1_025, 4_097, 65_466, 300_000] {
        for (application, comment) in [(size, 1), (1, size)] {
            let right = reads_line(rt.alloc(), application, comment).expect(&rt, "there is memory");
            assert!(rt; right, "in case {size}");
        }
    }
}

#[test]
fn blobs(rt: HostRuntime) {
    for size in [1_023, 4_096, 16_384, 65_466] {
        let blob = device_key(rt.alloc(), size).expect(&rt, "there is memory");
        let key = read_key(&blob).ok().expect(&rt, "the blob is a key");
        let made = plain_blob(rt.alloc(), &key).expect(&rt, "there is memory");
        assert!(rt; made.as_slice() == blob.as_slice(), "in case {size}");
    }
}

// Whether a container with a comment of this many bytes is read.
fn reads_container(alloc: Global, size: usize) -> Result<bool, AllocError> {
    let comment = vec![in alloc; b'c'; size]?;
    let bytes = Container::of(GITHUB, FIELDS, &comment).bytes(alloc)?;
    let text = armoured(alloc, &bytes)?;
    Ok(is_read(alloc, &text, GITHUB, &comment))
}

#[test]
fn containers(rt: HostRuntime) {
    for size in [1_025, 4_097, 300_000] {
        let right = reads_container(rt.alloc(), size).expect(&rt, "there is memory");
        assert!(rt; right, "in case {size}");
    }
}
