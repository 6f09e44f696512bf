//! Lines of several formats: the places that are in each, and texts that are none.

use key_places::Places;
use key_text::read_line;
use ssh_wire::Bytes;
use std::alloc::Global;
use std::process::Abort;
use std::test::Fail;
use test_fixtures::{CERT_LINE, GITHUB, OTHER, joined, strings};

// The key that GitHub publishes for its hosts, as a line, and the base64 in it.
const KEY: &str =
    "ssh-ed25519 AAAAC3NzaC1lZDI1NTE5AAAAIOMqqnkVzrm0SdG6UOoqKLsabgH5C9okWi0dh2l9GKJl";

const WORD: &str = "AAAAC3NzaC1lZDI1NTE5AAAAIOMqqnkVzrm0SdG6UOoqKLsabgH5C9okWi0dh2l9GKJl";

// The line of the key of 32 bytes 0x11.
const NEXT: &str =
    "ssh-ed25519 AAAAC3NzaC1lZDI1NTE5AAAAIBERERERERERERERERERERERERERERERERERERERERER";

// The blob of the key of 32 bytes 0xff, and its base64 with a backslash before each slash.
const ONES: &[u8] = b"\0\0\0\x0bssh-ed25519\0\0\0\x20\
\xff\xff\xff\xff\xff\xff\xff\xff\xff\xff\xff\xff\xff\xff\xff\xff\
\xff\xff\xff\xff\xff\xff\xff\xff\xff\xff\xff\xff\xff\xff\xff\xff";

const SLASHED: &str = "AAAAC3NzaC1lZDI1NTE5AAAAIP\
\\/\\/\\/\\/\\/\\/\\/\\/\\/\\/\\/\\/\\/\\/\
\\/\\/\\/\\/\\/\\/\\/\\/\\/\\/\\/\\/\\/\\/\
\\/\\/\\/\\/\\/\\/\\/\\/\\/\\/\\/\\/\\/\\/";

// The parts of a line, and for each place its column and its blob, or none if the word is cut. Each
// name is `ssh-ed25519`.
static LINES: [(&[&str], &[(u64, Option<&[u8]>)]); 41] = [
    // YAML of cloud-init.
    (&["  - ", KEY, " bob@example.org"], &[(5, Some(GITHUB))]),
    (
        &["keys: [\"", KEY, "\", \"", NEXT, "\"]"],
        &[(9, Some(GITHUB)), (93, Some(OTHER))],
    ),
    // Terraform: an argument, and a line of a heredoc.
    (
        &["  public_key = \"", KEY, " deployer\""],
        &[(17, Some(GITHUB))],
    ),
    (&["    ", NEXT], &[(5, Some(OTHER))]),
    // JSON: line ends and quotes as escapes, and slashes with a backslash.
    (
        &["{\"keys\": \"", KEY, "\\n", NEXT, "\\n\"}"],
        &[(11, Some(GITHUB)), (93, Some(OTHER))],
    ),
    (
        &[
            "{\"key\": \"command=\\\"date\\\" ",
            KEY,
            " bob\\r\\n\\t",
            NEXT,
            "\"}",
        ],
        &[(27, Some(GITHUB)), (117, Some(OTHER))],
    ),
    (
        &["{\"key\": \"ssh-ed25519 ", SLASHED, "\\r\\n\"}"],
        &[(10, Some(ONES))],
    ),
    // LDIF, a line with options, and two keys in a line.
    (&["sshPublicKey: ", KEY, " bob"], &[(15, Some(GITHUB))]),
    (&["from=\"10.0.0.0/8\",no-pty ", KEY], &[(26, Some(GITHUB))]),
    (
        &[KEY, ",", NEXT, ";", KEY],
        &[(1, Some(GITHUB)), (82, Some(OTHER)), (163, Some(GITHUB))],
    ),
    (&[KEY, " ", KEY], &[(1, Some(GITHUB)), (82, Some(GITHUB))]),
    // Blanks: one or more, also tabs.
    (&["\tssh-ed25519\t \t", WORD, "\t"], &[(2, Some(GITHUB))]),
    (&["ssh-ed25519\\t", WORD], &[]),
    (&["ssh-ed25519", WORD], &[]),
    // A name begins after any byte of no name, and after an escape, and nowhere else.
    (&["_", KEY], &[(2, Some(GITHUB))]),
    (&["/", KEY], &[(2, Some(GITHUB))]),
    (&["\\", KEY], &[(2, Some(GITHUB))]),
    (&["\\r", KEY], &[(3, Some(GITHUB))]),
    (&["\\b", KEY], &[]),
    (&["n", KEY], &[]),
    (&["9", KEY], &[]),
    (&["-", KEY], &[]),
    (&[".", KEY], &[]),
    (&["@", KEY], &[]),
    (&["sk-", KEY], &[]),
    // The name is a whole word, and the blob is one of its type.
    (&["sk-ssh-ed25519@openssh.com ", WORD], &[]),
    (&["ssh-ed25519-cert-v01@openssh.com ", WORD], &[]),
    (&["ssh-rsa ", WORD], &[]),
    (&["ssh-ed25519, ", WORD], &[]),
    (&["ssh-rsa key for bob"], &[]),
    (&["ssh-ed25519 ssh-rsa ", KEY], &[(21, Some(GITHUB))]),
    // A word that is cut: its end is missing, or is no padding. Without its start it is no place.
    (
        &["ssh-ed25519 AAAAC3NzaC1lZDI1NTE5AAAAIOMqqnkVzrm0S"],
        &[(1, None)],
    ),
    (&[KEY, "="], &[(1, None)]),
    (&[KEY, "+/", NEXT], &[(1, None), (83, Some(OTHER))]),
    (&["ssh-rsa AAAAB3NzaC1yc2E"], &[]),
    (&[KEY, "\\u002f"], &[(1, Some(GITHUB))]),
    // A line that ends too early, and a line in a line of prose.
    (&[""], &[]),
    (&["ssh-ed25519"], &[]),
    (&["ssh-ed25519  "], &[]),
    (&["-"], &[]),
    (&["see ", KEY, ", the key of bob"], &[(5, Some(GITHUB))]),
];

// The bytes of the parts, one after another.
fn line_of(alloc: Global, parts: &[&str]) -> Result<Vec<u8>, Fail> {
    let mut line = Vec::new(alloc);
    for part in parts {
        line.extend_from_slice(part.as_bytes())?;
    }
    Ok(line)
}

// Whether the blob of a place is the expected one.
fn same_blob(blob: &Option<Bytes>, wanted: &Option<&[u8]>) -> bool {
    match (blob, wanted) {
        (None, None) => true,
        (Some(bytes), Some(wanted)) => bytes.as_slice() == *wanted,
        _ => false,
    }
}

// Asserts that a line has these places of one type and no others.
fn check(
    rt: &impl Abort,
    alloc: Global,
    line: &[u8],
    name: &[u8],
    wanted: &[(u64, Option<&[u8]>)],
) -> Result<(), Fail> {
    let mut places = Places::new(line);
    for (column, blob) in wanted {
        let place = places.next(alloc)?.ok_or("a place is missed")?;
        assert_eq!(rt; place.column, *column);
        assert!(rt; place.name == name);
        assert!(rt; same_blob(&place.blob, blob), "at {column}");
    }
    assert!(rt; places.next(alloc)?.is_none());
    assert!(rt; places.next(alloc)?.is_none());
    Ok(())
}

#[test]
fn places_in_lines(rt: HostRuntime) -> Result<(), Fail> {
    for (parts, wanted) in &LINES {
        let line = line_of(rt.alloc(), *parts)?;
        check(&rt, rt.alloc(), &line, b"ssh-ed25519", *wanted)?;
    }
    Ok(())
}

// The names of the types, and the base64 of the string of each.
static TYPES: [(&[u8], &[u8]); 16] = [
    (b"ssh-rsa", b"AAAAB3NzaC1yc2E="),
    (b"ssh-dss", b"AAAAB3NzaC1kc3M="),
    (b"ecdsa-sha2-nistp256", b"AAAAE2VjZHNhLXNoYTItbmlzdHAyNTY="),
    (b"ecdsa-sha2-nistp384", b"AAAAE2VjZHNhLXNoYTItbmlzdHAzODQ="),
    (b"ecdsa-sha2-nistp521", b"AAAAE2VjZHNhLXNoYTItbmlzdHA1MjE="),
    (b"ssh-ed25519", b"AAAAC3NzaC1lZDI1NTE5"),
    (
        b"sk-ecdsa-sha2-nistp256@openssh.com",
        b"AAAAInNrLWVjZHNhLXNoYTItbmlzdHAyNTZAb3BlbnNzaC5jb20=",
    ),
    (
        b"sk-ssh-ed25519@openssh.com",
        b"AAAAGnNrLXNzaC1lZDI1NTE5QG9wZW5zc2guY29t",
    ),
    (
        b"ssh-rsa-cert-v01@openssh.com",
        b"AAAAHHNzaC1yc2EtY2VydC12MDFAb3BlbnNzaC5jb20=",
    ),
    (
        b"ssh-dss-cert-v01@openssh.com",
        b"AAAAHHNzaC1kc3MtY2VydC12MDFAb3BlbnNzaC5jb20=",
    ),
    (
        b"ecdsa-sha2-nistp256-cert-v01@openssh.com",
        b"AAAAKGVjZHNhLXNoYTItbmlzdHAyNTYtY2VydC12MDFAb3BlbnNzaC5jb20=",
    ),
    (
        b"ecdsa-sha2-nistp384-cert-v01@openssh.com",
        b"AAAAKGVjZHNhLXNoYTItbmlzdHAzODQtY2VydC12MDFAb3BlbnNzaC5jb20=",
    ),
    (
        b"ecdsa-sha2-nistp521-cert-v01@openssh.com",
        b"AAAAKGVjZHNhLXNoYTItbmlzdHA1MjEtY2VydC12MDFAb3BlbnNzaC5jb20=",
    ),
    (
        b"ssh-ed25519-cert-v01@openssh.com",
        b"AAAAIHNzaC1lZDI1NTE5LWNlcnQtdjAxQG9wZW5zc2guY29t",
    ),
    (
        b"sk-ecdsa-sha2-nistp256-cert-v01@openssh.com",
        b"AAAAK3NrLWVjZHNhLXNoYTItbmlzdHAyNTYtY2VydC12MDFAb3BlbnNzaC5jb20=",
    ),
    (
        b"sk-ssh-ed25519-cert-v01@openssh.com",
        b"AAAAI3NrLXNzaC1lZDI1NTE5LWNlcnQtdjAxQG9wZW5zc2guY29t",
    ),
];

#[test]
fn each_type(rt: HostRuntime) -> Result<(), Fail> {
    let alloc = rt.alloc();
    let mut before: &[u8] = b"";
    for (name, word) in &TYPES {
        assert!(rt; word.len() > 15);
        let start = &word[..15];
        let blob = strings(alloc, &[*name])?;
        let whole = joined(alloc, &[b"{\"", *name, b" ", *word, b"\"}"])?;
        check(&rt, alloc, &whole, *name, &[(3, Some(blob.as_slice()))])?;
        let cut = joined(alloc, &[b"=", *name, b"\t", *word, b"A"])?;
        check(&rt, alloc, &cut, *name, &[(2, None)])?;
        let short = joined(alloc, &[*name, b" ", start])?;
        check(&rt, alloc, &short, *name, &[])?;
        let other = joined(alloc, &[*name, b" ", before])?;
        check(&rt, alloc, &other, *name, &[])?;
        before = *word;
    }
    let line = joined(alloc, &[b"known: '", CERT_LINE, b"' # bob"])?;
    let certificate = read_line(alloc, CERT_LINE)?;
    check(
        &rt,
        alloc,
        &line,
        certificate.word,
        &[(9, Some(certificate.blob.as_slice()))],
    )
}
