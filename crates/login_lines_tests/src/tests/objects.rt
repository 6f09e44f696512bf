//! The object of a login (krl(1), krl logins and JSON).

use crate::tests::outcomes::{AFTER, BEFORE, CERTIFICATE, KEY};
use crate::tests::texts::{EACH, said_about};
use audit_text::Format;
use krl_entries::Reason;
use test_fixtures::joined;

// A line, the reasons of the answer, and the object after the name of the file.
static LINES: [(&[u8], &[Reason], &[u8]); 5] = [
    // Nothing is before the message.
    (
        KEY,
        &[Reason::Key],
        b"\"status\":\"revoked\",\"type\":\"ED25519\",\
\"fingerprint\":\"SHA256:RE0ZAsYmhXCrq75OR/3QxG+eyUgI1rLkxQpkbYWGCGI\",\
\"user\":\"root\",\"from\":\"127.0.0.1\",\"step\":\"accepted\",\"reasons\":[{\"by\":\"key\"}]}\n",
    ),
    (
        CERTIFICATE,
        EACH,
        b"\"status\":\"revoked\",\"type\":\"ED25519-CERT\",\
\"fingerprint\":\"SHA256:RE0ZAsYmhXCrq75OR/3QxG+eyUgI1rLkxQpkbYWGCGI\",\
\"user\":\"root\",\"from\":\"127.0.0.1\",\"time\":\"Nov 30 18:38:52 vm sshd[31141]: \",\
\"step\":\"accepted\",\"certificate\":{\"serial\":\"5\",\"id\":\"bob\",\
\"authority\":\"SHA256:11kQQXkjpRxKIH3m94KRTIwYUOxGz9hdeAQwIaielZ0\"},\
\"reasons\":[{\"by\":\"key\"},{\"by\":\"sha256\"},{\"by\":\"authority\",\"of\":\"key\"},\
{\"by\":\"authority\",\"of\":\"sha256\"},{\"by\":\"serial\",\"serial\":\"5\",\
\"authority\":\"SHA256:11kQQXkjpRxKIH3m94KRTIwYUOxGz9hdeAQwIaielZ0\"},\
{\"by\":\"serial\",\"serial\":\"5\",\"authority\":\"all\"},{\"by\":\"id\",\"id\":\"bob\",\
\"authority\":\"SHA256:11kQQXkjpRxKIH3m94KRTIwYUOxGz9hdeAQwIaielZ0\"},\
{\"by\":\"id\",\"id\":\"bob\",\"authority\":\"all\"}]}\n",
    ),
    (
        b"Partial publickey for root from ::1 port 38092 ssh2: \
RSA SHA256:2OkI6Jb19BgFbB52uc0b8Zoya8hEjgDOxyXmQtEyahM\r",
        &[],
        b"\"status\":\"ok\",\"type\":\"RSA\",\
\"fingerprint\":\"SHA256:2OkI6Jb19BgFbB52uc0b8Zoya8hEjgDOxyXmQtEyahM\",\
\"user\":\"root\",\"from\":\"::1\",\"step\":\"partial\",\"reasons\":[]}\n",
    ),
    // Control characters, and texts that are not UTF-8.
    (
        b"\x1b sshd[1]: Accepted publickey for a\x1b\" from \xe9 port 22 ssh2: \
RSA SHA256:2OkI6Jb19BgFbB52uc0b8Zoya8hEjgDOxyXmQtEyahM",
        &[],
        b"\"status\":\"ok\",\"type\":\"RSA\",\
\"fingerprint\":\"SHA256:2OkI6Jb19BgFbB52uc0b8Zoya8hEjgDOxyXmQtEyahM\",\
\"user\":\"a\\u001b\\\"\",\"from_base64\":\"6Q==\",\"time\":\"\\u001b sshd[1]: \",\
\"step\":\"accepted\",\"reasons\":[]}\n",
    ),
    (
        b"\xe9 sshd[1]: Accepted publickey for \xff from ::1 port 22 ssh2: \
RSA SHA256:2OkI6Jb19BgFbB52uc0b8Zoya8hEjgDOxyXmQtEyahM",
        &[],
        b"\"status\":\"ok\",\"type\":\"RSA\",\
\"fingerprint\":\"SHA256:2OkI6Jb19BgFbB52uc0b8Zoya8hEjgDOxyXmQtEyahM\",\
\"user_base64\":\"/w==\",\"from\":\"::1\",\"time_base64\":\"6SBzc2hkWzFdOiA=\",\
\"step\":\"accepted\",\"reasons\":[]}\n",
    ),
];

#[test]
fn objects_of_logins(rt: HostRuntime) {
    let alloc = rt.alloc();
    for (i, (line, reasons, said)) in LINES.iter().enumerate() {
        let found = said_about(&rt, alloc, Format::Json, line, reasons);
        let parts: [&[u8]; 2] = [b"{\"file\":\"auth.log\",\"line\":3,", *said];
        let wanted = joined(alloc, &parts).expect(&rt, "there is memory");
        assert_eq!(rt; found.as_slice(), wanted.as_slice(), "in row {i}");
    }
}

// The text that sshd writes for a key ID, and its field.
static IDS: [(&[u8], &[u8]); 4] = [
    (b"", b"\"id\":\"\""),
    (b"a\\ab\\\\", b"\"id\":\"a\\u0007b\\\\\""),
    (b"\\302\\233", b"\"id\":\"\\u009b\""),
    (b"a\\377", b"\"id_base64\":\"Yf8=\""),
];

#[test]
fn key_ids_have_fields(rt: HostRuntime) {
    let alloc = rt.alloc();
    for (i, (id, field)) in IDS.iter().enumerate() {
        let line = joined(alloc, &[BEFORE, *id, AFTER]).expect(&rt, "there is memory");
        let reasons = &[Reason::KeyIdOfAll];
        let found = said_about(&rt, alloc, Format::Json, &line, reasons);
        let parts: [&[u8]; 5] = [
            b"{\"file\":\"auth.log\",\"line\":3,\"status\":\"revoked\",\"type\":\"ED25519-CERT\",\
\"fingerprint\":\"SHA256:RE0ZAsYmhXCrq75OR/3QxG+eyUgI1rLkxQpkbYWGCGI\",\
\"user\":\"root\",\"from\":\"127.0.0.1\",\"step\":\"accepted\",\"certificate\":{\"serial\":\"5\",",
            *field,
            b",\"authority\":\"SHA256:11kQQXkjpRxKIH3m94KRTIwYUOxGz9hdeAQwIaielZ0\"},\
\"reasons\":[{\"by\":\"id\",",
            *field,
            b",\"authority\":\"all\"}]}\n",
        ];
        let wanted = joined(alloc, &parts).expect(&rt, "there is memory");
        assert_eq!(rt; found.as_slice(), wanted.as_slice(), "in row {i}");
    }
}
