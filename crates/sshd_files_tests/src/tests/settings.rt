//! Texts of `sshd -T`, and texts that are none.

use crate::tests::printed::{NEW, OLD, SHORT};
use sshd_files::{Setting, Settings, SettingsFault, settings_of};
use std::test::Fail;

// A text of three settings, and the fault of what follows it or comes before it.
static FAULTS: [(&str, SettingsFault); 12] = [
    ("", SettingsFault::NoEnd),
    ("authorizedkeysfile a", SettingsFault::NoEnd),
    ("port 22\n", SettingsFault::Missing(Setting::Files)),
    ("\n", SettingsFault::Missing(Setting::Files)),
    (
        "AuthorizedKeysFile a\n",
        SettingsFault::Missing(Setting::Files),
    ),
    (
        " authorizedkeysfile a\n",
        SettingsFault::Missing(Setting::Files),
    ),
    (
        "authorizedkeysfile a\n",
        SettingsFault::Missing(Setting::Authorities),
    ),
    (
        "authorizedkeysfile a\nauthorizedkeysfile a\n",
        SettingsFault::Twice(Setting::Files),
    ),
    (
        "authorizedkeysfile\ntrustedusercakeys a\nrevokedkeys\n",
        SettingsFault::Missing(Setting::Command),
    ),
    (
        "revokedkeys\nauthorizedkeysfile\ntrustedusercakeys a\nrevokedkeys b\n",
        SettingsFault::Twice(Setting::List),
    ),
    (
        "authorizedkeysfile\ntrustedusercakeys a\ntrustedusercakeys\n",
        SettingsFault::Twice(Setting::Authorities),
    ),
    (
        "authorizedkeyscommand\nauthorizedkeysfile\ntrustedusercakeys a\nrevokedkeys b\n\
            authorizedkeyscommand\n",
        SettingsFault::Twice(Setting::Command),
    ),
];

// Whether a value is this text, or there is none.
fn is(value: Option<&[u8]>, wanted: Option<&[u8]>) -> bool {
    match (value, wanted) {
        (None, None) => true,
        (Some(value), Some(wanted)) => value == wanted,
        _ => false,
    }
}

// Whether the values are these texts.
fn are(values: &[&[u8]], wanted: &[&[u8]]) -> bool {
    values.len() == wanted.len() && values.iter().zip(wanted).all(|(a, b)| *a == *b)
}

// Whether the settings have these values.
fn has(
    settings: &Settings<'_>,
    files: &[u8],
    others: [Option<&[u8]>; 3],
    host_keys: &[&[u8]],
    host_certificates: &[&[u8]],
) -> bool {
    settings.files == files
        && is(settings.authorities, others[0])
        && is(settings.list, others[1])
        && is(settings.command, others[2])
        && are(&settings.host_keys, host_keys)
        && are(&settings.host_certificates, host_certificates)
}

#[test]
fn settings(rt: HostRuntime) -> Result<(), Fail> {
    let alloc = rt.alloc();
    let old = settings_of(alloc, OLD)?
        .ok()
        .expect(&rt, "OpenSSH 9.2 prints it");
    let files = b".ssh/authorized_keys .ssh/authorized_keys2";
    let keys: [&[u8]; 3] = [
        b"/etc/ssh/ssh_host_rsa_key",
        b"/etc/ssh/ssh_host_ecdsa_key",
        b"/etc/ssh/ssh_host_ed25519_key",
    ];
    let certificate: &[u8] = b"/etc/ssh/ssh_host_ed25519_key-cert.pub";
    let others: [Option<&[u8]>; 3] = [
        Some(b"/etc/ssh/user_ca.pub"),
        Some(b"/etc/ssh/revoked"),
        None,
    ];
    assert!(rt; has(&old, files, others, &keys, &[certificate]));
    let new = settings_of(alloc, NEW)?
        .ok()
        .expect(&rt, "OpenSSH 10 prints it");
    let files = b"/etc/ssh/keys/%u /srv/%U/keys %h/.ssh/authorized_keys";
    let others: [Option<&[u8]>; 3] = [
        None,
        None,
        Some(b"/usr/bin/sss_ssh_authorizedkeys --debug 0 %u"),
    ];
    assert!(rt; has(&new, files, others, &[keys[0], keys[2]], &[]));
    let short = settings_of(alloc, SHORT)?
        .ok()
        .expect(&rt, "it has the four lines");
    assert!(rt; has(&short, b"none", [None, None, None], &[], &[]));
    for (i, (text, wanted)) in FAULTS.iter().enumerate() {
        let fault = settings_of(alloc, text.as_bytes())?;
        assert!(rt;
            matches!(&fault, Err(found) if *found == *wanted),
            "in row {i}"
        );
    }
    assert!(rt; SettingsFault::Missing(Setting::List).words() == "revokedkeys is missing");
    Ok(())
}
