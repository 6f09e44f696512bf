//! Patterns, and the files of settings and users.

use crate::tests::printed::{NEW, OLD, SHORT};
use sshd_files::{SshdFile, SshdFileKind, User, files_of, settings_of, users_of};
use std::alloc::{AllocError, Global};
use std::test::Fail;

const ROOT: User<'static> = User {
    name: b"root",
    number: 0,
    home: b"/root",
};

const BOB: User<'static> = User {
    name: b"bob",
    number: 1000,
    home: b"/home/bob",
};

const TOP: User<'static> = User {
    name: b"bin",
    number: 4294967295,
    home: b"/",
};

// Patterns, and the paths of two users.
static PATTERNS: [(&str, &[&str]); 12] = [
    (
        ".ssh/authorized_keys",
        &["/home/bob/.ssh/authorized_keys", "//.ssh/authorized_keys"],
    ),
    (
        "%h/.ssh/authorized_keys",
        &["/home/bob/.ssh/authorized_keys", "//.ssh/authorized_keys"],
    ),
    (
        "/etc/ssh/keys/%u",
        &["/etc/ssh/keys/bob", "/etc/ssh/keys/bin"],
    ),
    ("/srv/%U", &["/srv/1000", "/srv/4294967295"]),
    ("/srv/%%u%%", &["/srv/%u%"]),
    ("/srv/%%%u", &["/srv/%bob", "/srv/%bin"]),
    ("%u", &["/home/bob/bob", "//bin"]),
    ("%%", &["/home/bob/%", "//%"]),
    ("/a  /b/%u ", &["/a", "/b/bob", "/b/bin"]),
    ("/a /a none NONE nOnE /none", &["/a", "/none"]),
    ("none", &[]),
    ("", &[]),
];

// Patterns, and the first word that sshd cannot read.
static FAULTS: [(&str, &str); 6] = [
    ("%x", "%x"),
    ("/a/%", "/a/%"),
    ("/a %h/%H /b/%d", "%h/%H"),
    ("%%%", "%%%"),
    ("%\t", "%\t"),
    ("% h", "%"),
];

// A text of `sshd -T` with these patterns.
fn printed(alloc: Global, patterns: &str) -> Result<Vec<u8>, AllocError> {
    let mut text = Vec::from_slice(alloc, b"authorizedkeysfile ")?;
    text.extend_from_slice(patterns.as_bytes())?;
    text.extend_from_slice(b"\ntrustedusercakeys none\nrevokedkeys none\n")?;
    text.extend_from_slice(b"authorizedkeyscommand none\n")?;
    Ok(text)
}

// The files of texts that `sshd -T` prints, or the word of the fault. `None` if it prints none.
fn listed(
    alloc: Global,
    texts: &[&[u8]],
    users: &[User<'_>],
    asked: bool,
) -> Result<Option<Result<Vec<SshdFile>, Vec<u8>>>, AllocError> {
    let mut settings = Vec::new(alloc);
    for text in texts {
        let Ok(one) = settings_of(alloc, text)? else {
            return Ok(None);
        };
        settings.push(one)?;
    }
    match files_of(alloc, &settings, users, asked)? {
        Ok(files) => Ok(Some(Ok(files))),
        Err(fault) => Ok(Some(Err(Vec::from_slice(alloc, fault.word)?))),
    }
}

// Whether the files are those of the rows.
fn are(files: &[SshdFile], rows: &[(SshdFileKind, &str)]) -> bool {
    files.len() == rows.len()
        && files.iter().zip(rows).all(|(file, row)| file.kind == row.0
            && file.path.as_slice() == row.1.as_bytes())
}

// Whether the files have keys, and these paths.
fn are_paths(files: &[SshdFile], paths: &[&str]) -> bool {
    files.len() == paths.len()
        && files.iter().zip(paths).all(|(file, path)| {
            file.kind == SshdFileKind::Keys && file.path.as_slice() == path.as_bytes()
        })
}

#[test]
fn patterns(rt: HostRuntime) -> Result<(), Fail> {
    let alloc = rt.alloc();
    for (i, (patterns, wanted)) in PATTERNS.iter().enumerate() {
        let text = printed(alloc, patterns)?;
        let files = listed(alloc, &[&text], &[BOB, TOP], false)?;
        let same = matches!(&files, Some(Ok(files)) if are_paths(files, wanted));
        assert!(rt; same, "in row {i}");
    }
    for (i, (patterns, wanted)) in FAULTS.iter().enumerate() {
        let text = printed(alloc, patterns)?;
        let with_users = listed(alloc, &[SHORT, &text], &[BOB], false)?;
        let alone = listed(alloc, &[&text, &text], &[], true)?;
        for files in [with_users, alone] {
            let same = matches!(&files, Some(Err(word)) if word.as_slice() == wanted.as_bytes());
            assert!(rt; same, "in row {i}");
        }
    }
    Ok(())
}

// The files of three texts for two users.
const ALL: [(SshdFileKind, &str); 15] = [
    (SshdFileKind::Keys, "/root/.ssh/authorized_keys"),
    (SshdFileKind::Keys, "/root/.ssh/authorized_keys2"),
    (SshdFileKind::Keys, "/home/bob/.ssh/authorized_keys"),
    (SshdFileKind::Keys, "/home/bob/.ssh/authorized_keys2"),
    (SshdFileKind::Keys, "/etc/ssh/user_ca.pub"),
    (SshdFileKind::HostKey, "/etc/ssh/ssh_host_rsa_key"),
    (SshdFileKind::HostKey, "/etc/ssh/ssh_host_ecdsa_key"),
    (SshdFileKind::HostKey, "/etc/ssh/ssh_host_ed25519_key"),
    (SshdFileKind::Keys, "/etc/ssh/ssh_host_ed25519_key-cert.pub"),
    (SshdFileKind::Keys, "/etc/ssh/keys/root"),
    (SshdFileKind::Keys, "/srv/0/keys"),
    (SshdFileKind::Keys, "/etc/ssh/keys/bob"),
    (SshdFileKind::Keys, "/srv/1000/keys"),
    (
        SshdFileKind::Command,
        "/usr/bin/sss_ssh_authorizedkeys --debug 0 %u",
    ),
    (
        SshdFileKind::Keys,
        "/usr/bin/sss_ssh_authorizedkeys --debug 0 %u",
    ),
];

// A text whose file of authorities has the path that is the command of another.
const COMMAND_AS_PATH: &[u8] = b"authorizedkeysfile none
trustedusercakeys /usr/bin/sss_ssh_authorizedkeys --debug 0 %u
revokedkeys none
authorizedkeyscommand /usr/bin/sss_ssh_authorizedkeys --debug 0 %u
";

#[test]
fn files(rt: HostRuntime) -> Result<(), Fail> {
    let alloc = rt.alloc();
    let texts: [&[u8]; 4] = [OLD, NEW, OLD, COMMAND_AS_PATH];
    let files = listed(alloc, &texts, &[ROOT, BOB, ROOT], false)?;
    assert!(rt; matches!(&files, Some(Ok(files)) if are(files, &ALL)));
    let asked = listed(alloc, &texts[..3], &[ROOT, BOB], true)?;
    assert!(rt; matches!(&asked, Some(Ok(files)) if are(files, &ALL[..13])));
    let hosts = listed(alloc, &texts[..1], &[], false)?;
    assert!(rt; matches!(&hosts, Some(Ok(files)) if are(files, &ALL[4..9])));
    let none = listed(alloc, &[], &[ROOT], false)?;
    assert!(rt; matches!(&none, Some(Ok(files)) if files.is_empty()));
    Ok(())
}

// A list of 2,000 users.
fn many_users(alloc: Global) -> Result<String, AllocError> {
    let mut text = String::new(alloc);
    for i in 0..2000 {
        let line = format!(in alloc; "u{i}:x:{i}:{i}::/home/u{i}:/bin/sh\n")?;
        text.push_str(&line)?;
    }
    Ok(text)
}

#[test]
fn many_files(rt: HostRuntime) -> Result<(), Fail> {
    let alloc = rt.alloc();
    let text = many_users(alloc)?;
    let users = users_of(alloc, text.as_bytes())?
        .ok()
        .expect(&rt, "each line has a user");
    assert!(rt; users.len() == 2000);
    let files = listed(alloc, &[NEW, NEW], &users, false)?;
    let Some(Ok(files)) = files else {
        panic!(rt; "the patterns are known");
    };
    assert!(rt; files.len() == 6003);
    assert!(rt; files[5999].path.as_slice() == b"/home/u1999/.ssh/authorized_keys".as_slice());
    Ok(())
}
