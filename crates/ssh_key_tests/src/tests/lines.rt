//! Lines that give a key, and lines that give none.

use key_text::{LineFault, has_key, read_line};
use std::alloc::{AllocError, Global};
use test_fixtures::{GITHUB, GITHUB_LINE, joined};

// Whether the line of the key between two texts gives it and this comment.
fn reads(alloc: Global, before: &[u8], after: &[u8], comment: &[u8]) -> Result<bool, AllocError> {
    let text = joined(alloc, &[before, GITHUB_LINE, after])?;
    Ok(match read_line(alloc, &text) {
        Ok(line) => {
            line.word == b"ssh-ed25519".as_slice()
                && line.blob.as_slice() == GITHUB
                && line.comment == comment
        }
        Err(_) => false,
    })
}

// The text before the line of the key, the text after it, and the comment.
const READ: [(&[u8], &[u8], &[u8]); 4] = [
    (b"", b"", b""),
    (b" \t", b" \t a \t b \r", b"a \t b"),
    (b"command=\"a \\\" b\" ", b"", b""),
    (b"\"ssh-rsa \" ", b" c", b"c"),
];

#[test]
fn read(rt: HostRuntime) {
    for (i, (before, after, comment)) in READ.iter().enumerate() {
        let right = reads(rt.alloc(), *before, *after, *comment).expect(&rt, "there is memory");
        assert!(rt; right, "in case {i}");
    }
}

const REFUSED: [(&str, LineFault); 4] = [
    (
        "ssh-rsa AAAAC3NzaC1lZDI1NTE5AAAAIOMqqnkVzrm0SdG6UOoqKLsabgH5C9okWi0dh2l9GKJl",
        LineFault::WordDiffers,
    ),
    ("ssh-ed25519", LineFault::NoKey),
    (
        "\"a \"b c\" d\" ssh-ed25519 AAAAC3NzaC1lZDI1NTE5",
        LineFault::NoKey,
    ),
    ("ssh-ed25519 AAA", LineFault::Base64),
];

#[test]
fn refused(rt: HostRuntime) {
    for (i, (text, fault)) in REFUSED.iter().enumerate() {
        let found = read_line(rt.alloc(), text.as_bytes()).err();
        assert!(rt; found == Some(*fault), "in case {i}");
    }
}

#[test]
fn lines_with_a_key_and_without(rt: HostRuntime) {
    assert!(rt; has_key(b"\ta # b\r"));
    for line in [b"".as_slice(), b" \t\r", b" # a"] {
        assert!(rt; !has_key(line));
    }
}
