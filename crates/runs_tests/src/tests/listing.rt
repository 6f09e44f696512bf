//! Listing the keys and the certificates of files.

use crate::tests::runs::{CLOSED, File, LONG, Said, joined, listed, named, repeated, says};
use key_listing::ListMode;
use key_text::Hash;
use std::alloc::Global;
use std::process::Abort;
use test_fixtures::{CERT_LINE, CONTAINER, GITHUB_LINE, OTHER_LINE, Taker};

// The run prints this listing of a file at the moment 0.
fn lists(
    rt: &impl Abort,
    alloc: Global,
    number: usize,
    (mode, hash): (ListMode, Hash),
    file: &File,
    said: Said,
) {
    let file = named(rt, alloc, file);
    let ran = listed(rt, alloc, mode, hash, &file, 0, Taker::whole(alloc));
    says(rt, number, &ran, said);
}

// A hash, the parts of a file, and the listing of its keys. The fingerprints are from other
// programs.
type Listed<'a> = (Hash, &'a [&'a [u8]], Said<'a>);

const LISTED: [Listed<'static>; 5] = [
    (
        Hash::Sha256,
        &[GITHUB_LINE, b" a\x1bb\tc\n", CERT_LINE],
        (
            b"256 SHA256:+DiY3wvvV6TuJJhbpZisF/zLDA0zPMSvHdkr4UvCOqU a\\x1bb\\x09c (ED25519)\n\
256 SHA256:+DiY3wvvV6TuJJhbpZisF/zLDA0zPMSvHdkr4UvCOqU no comment (ED25519-CERT)\n",
            0,
            "",
        ),
    ),
    (
        Hash::Md5,
        &[GITHUB_LINE, b"\r\n"],
        (
            b"256 MD5:65:96:2d:fc:e8:d5:a9:11:64:0c:0f:ea:00:6e:5b:bd no comment (ED25519)\n",
            0,
            "",
        ),
    ),
    (
        Hash::Sha256,
        &[CONTAINER],
        (
            b"256 SHA256:+DiY3wvvV6TuJJhbpZisF/zLDA0zPMSvHdkr4UvCOqU a (ED25519)\n",
            0,
            "",
        ),
    ),
    (
        Hash::Sha256,
        &[OTHER_LINE, b"\n\nssh-ed25519\n"],
        (
            b"256 SHA256:SQfC+vTbLURn9cTkVxIS8fGQ3FKNAJWeB0o139+gV4M no comment (ED25519)\n",
            255,
            "ssh-keygen: k: line 3: line 1 NoKey",
        ),
    ),
    (
        Hash::Sha256,
        &[b"# ", GITHUB_LINE],
        (b"", 255, "ssh-keygen: k: file 5 NoKeys"),
    ),
];

#[test]
fn keys(rt: HostRuntime) {
    for (i, (hash, parts, said)) in LISTED.iter().enumerate() {
        let file = ("k", Some(*parts));
        lists(&rt, rt.alloc(), i, (ListMode::Keys, *hash), &file, *said);
    }
}

// The listing of the certificate of the published key by the other one.
const SHOWN: &[u8] = b"k:2:\n\
     \x20       Type: ssh-ed25519-cert-v01@openssh.com user certificate\n\
     \x20       Public key: ED25519-CERT SHA256:+DiY3wvvV6TuJJhbpZisF/zLDA0zPMSvHdkr4UvCOqU\n\
     \x20       Signing CA: ED25519 SHA256:SQfC+vTbLURn9cTkVxIS8fGQ3FKNAJWeB0o139+gV4M \
     (using ssh-ed25519)\n\
     \x20       Key ID: \"a\"\n\
     \x20       Serial: 7\n\
     \x20       Valid: forever\n\
     \x20       Valid now: yes\n\
     \x20       Principals: (none)\n\
     \x20       Critical Options: (none)\n\
     \x20       Extensions: (none)\n";

#[test]
fn certificates(rt: HostRuntime) {
    let how = (ListMode::Certs, Hash::Sha256);
    let file: File = ("k", Some(&[GITHUB_LINE, b"\n", CERT_LINE]));
    lists(&rt, rt.alloc(), 0, how, &file, (SHOWN, 0, ""));
    let plain: File = ("g.pub", Some(&[GITHUB_LINE]));
    let none = "ssh-keygen: g.pub: file 6 NoCertificate";
    lists(&rt, rt.alloc(), 1, how, &plain, (b"", 255, none));
    let closed = "ssh-keygen: none: file 1 Open";
    lists(&rt, rt.alloc(), 2, how, &CLOSED, (b"", 255, closed));
}

// A key with a long comment is listed.
fn lists_long(rt: &impl Abort, alloc: Global, size: usize) {
    let comment = repeated(rt, alloc, b"a\x7f", size);
    let shown = repeated(rt, alloc, b"a\\x7f", size);
    let parts = [OTHER_LINE, b" ", &comment];
    let file = ("k", Some(parts.as_slice()));
    let front = b"256 SHA256:SQfC+vTbLURn9cTkVxIS8fGQ3FKNAJWeB0o139+gV4M ";
    let text = joined(rt, alloc, &[front, &shown, b" (ED25519)\n"]);
    lists(
        rt,
        alloc,
        size,
        (ListMode::Keys, Hash::Sha256),
        &file,
        (&text, 0, ""),
    )
}

#[test]
fn long_comments(rt: HostRuntime) {
    for size in LONG {
        lists_long(&rt, rt.alloc(), size);
    }
}
