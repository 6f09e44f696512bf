//! Markers at the front of known hosts lines (sshd(8), SSH_KNOWN_HOSTS FILE FORMAT).

use key_text::{Marker, split_marker};

// A line, its marker, and the line without it.
const LINES: [(&str, Option<Marker>, &str); 9] = [
    (
        "@revoked * ssh-rsa AAAA",
        Some(Marker::Revoked),
        " * ssh-rsa AAAA",
    ),
    (
        " \t@cert-authority\t*.net,a ssh-rsa AAAA c \r",
        Some(Marker::Authority),
        "\t*.net,a ssh-rsa AAAA c",
    ),
    ("@revoked", Some(Marker::Revoked), ""),
    ("@revoked\r", Some(Marker::Revoked), ""),
    ("@Revoked * ssh-rsa AAAA", None, "@Revoked * ssh-rsa AAAA"),
    ("@revoked* ssh-rsa AAAA", None, "@revoked* ssh-rsa AAAA"),
    (
        "host @revoked ssh-rsa AAAA",
        None,
        "host @revoked ssh-rsa AAAA",
    ),
    (" ssh-rsa AAAA \r", None, " ssh-rsa AAAA \r"),
    ("", None, ""),
];

#[test]
fn a_marker_is_the_first_word(rt: HostRuntime) {
    for (i, (line, marker, rest)) in LINES.iter().enumerate() {
        let (found, left) = split_marker(line.as_bytes());
        assert!(rt; found == *marker, "the marker of line {i}");
        assert!(rt; left == rest.as_bytes(), "the rest of line {i}");
    }
}
