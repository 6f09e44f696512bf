//! The names of kinds.

use ssh_key::Kind;

// A kind, its name, its short name and the name of its certificates.
const NAMES: [(Kind, &str, &str, &str); 8] = [
    (Kind::Rsa, "ssh-rsa", "RSA", "ssh-rsa-cert-v01@openssh.com"),
    (Kind::Dsa, "ssh-dss", "DSA", "ssh-dss-cert-v01@openssh.com"),
    (
        Kind::Ecdsa256,
        "ecdsa-sha2-nistp256",
        "ECDSA",
        "ecdsa-sha2-nistp256-cert-v01@openssh.com",
    ),
    (
        Kind::Ecdsa384,
        "ecdsa-sha2-nistp384",
        "ECDSA",
        "ecdsa-sha2-nistp384-cert-v01@openssh.com",
    ),
    (
        Kind::Ecdsa521,
        "ecdsa-sha2-nistp521",
        "ECDSA",
        "ecdsa-sha2-nistp521-cert-v01@openssh.com",
    ),
    (
        Kind::Ed25519,
        "ssh-ed25519",
        "ED25519",
        "ssh-ed25519-cert-v01@openssh.com",
    ),
    (
        Kind::EcdsaSk,
        "sk-ecdsa-sha2-nistp256@openssh.com",
        "ECDSA-SK",
        "sk-ecdsa-sha2-nistp256-cert-v01@openssh.com",
    ),
    (
        Kind::Ed25519Sk,
        "sk-ssh-ed25519@openssh.com",
        "ED25519-SK",
        "sk-ssh-ed25519-cert-v01@openssh.com",
    ),
];

// Whether the kind has these names, and is found by the first and the last.
fn has_names(kind: Kind, name: &str, short_name: &str, cert_name: &str) -> bool {
    kind.name() == name
        && kind.short_name() == short_name
        && kind.cert_name() == cert_name
        && Kind::of_name(name.as_bytes()) == Some(kind)
        && Kind::of_cert_name(cert_name.as_bytes()) == Some(kind)
}

#[test]
fn names_of_each_kind(rt: HostRuntime) {
    for (i, (kind, name, short_name, cert_name)) in NAMES.iter().enumerate() {
        assert!(rt;
            has_names(*kind, *name, *short_name, *cert_name),
            "in case {i}"
        );
    }
    assert!(rt; Kind::of_name(b"ssh-ed448").is_none());
    assert!(rt; Kind::of_cert_name(b"ssh-rsa").is_none());
}
