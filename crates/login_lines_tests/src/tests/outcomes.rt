//! What lines of OpenSSH 9.2p1 and 10.0p2 report, and the queries about their logins.

use krl_types::Subject;
use login_lines::LoginFault::{self, Cut, Hostbased, Malformed};
use login_text::{Outcome, read_outcome, subject_of};
use std::alloc::Global;
use std::process::Abort;
use test_fixtures::{joined, repeated};

/// A line of a login by a plain key, as a file has it that sshd writes.
pub const KEY: &[u8] = b"Accepted publickey for root from 127.0.0.1 port 37634 ssh2: \
ED25519 SHA256:RE0ZAsYmhXCrq75OR/3QxG+eyUgI1rLkxQpkbYWGCGI\r";

/// A line of a login by a certificate of the same key, as rsyslogd(8) writes it.
pub const CERTIFICATE: &[u8] =
    b"Nov 30 18:38:52 vm sshd[31141]: Accepted publickey for root from 127.0.0.1 port 51710 ssh2: \
ED25519-CERT SHA256:RE0ZAsYmhXCrq75OR/3QxG+eyUgI1rLkxQpkbYWGCGI ID bob (serial 5) \
CA ED25519 SHA256:11kQQXkjpRxKIH3m94KRTIwYUOxGz9hdeAQwIaielZ0";

/// The text of such lines before the key ID of a certificate, and the text after it.
pub const BEFORE: &[u8] = b"Accepted publickey for root from 127.0.0.1 port 38188 ssh2: \
ED25519-CERT SHA256:RE0ZAsYmhXCrq75OR/3QxG+eyUgI1rLkxQpkbYWGCGI ID ";

pub const AFTER: &[u8] =
    b" (serial 5) CA ED25519 SHA256:11kQQXkjpRxKIH3m94KRTIwYUOxGz9hdeAQwIaielZ0\r";

// The bytes that the fingerprint of the key encodes, and those of the authority.
const KEY_SHA256: [u8; 32] = [
    68, 77, 25, 2, 198, 38, 133, 112, 171, 171, 190, 78, 71, 253, 208, 196, 111, 158, 201, 72, 8,
    214, 178, 228, 197, 10, 100, 109, 133, 134, 8, 98,
];

const AUTHORITY_SHA256: [u8; 32] = [
    215, 89, 16, 65, 121, 35, 165, 28, 74, 32, 125, 230, 247, 130, 145, 76, 140, 24, 80, 236, 70,
    207, 216, 93, 120, 4, 48, 33, 168, 158, 149, 157,
];

// The expected outcome of a line.
#[derive(Clone, Copy)]
enum Wanted {
    Nothing,
    Fault(LoginFault),
    // A login by the key above.
    Key,
    // A login by a certificate with this key ID and serial number, of the authority above.
    Certificate(&'static [u8], u64),
}

use Wanted::{Certificate, Fault, Key, Nothing};

// Lines, and what each reports.
static LINES: [(&[u8], Wanted); 14] = [
    (KEY, Key),
    (CERTIFICATE, Certificate(b"bob", 5)),
    (
        b"2026-11-30T18:41:14.420598+00:00 vm sshd-session[13307]: Accepted publickey for root \
from 127.0.0.1 port 45708 ssh2: ED25519 SHA256:RE0ZAsYmhXCrq75OR/3QxG+eyUgI1rLkxQpkbYWGCGI",
        Key,
    ),
    (
        b"2026-11-30T18:41:19.332086+00:00 vm sshd-session[14336]: Accepted publickey for root \
from 127.0.0.1 port 45816 ssh2: \
ED25519-CERT SHA256:RE0ZAsYmhXCrq75OR/3QxG+eyUgI1rLkxQpkbYWGCGI ID a\\ab (serial 5) \
CA ED25519 SHA256:11kQQXkjpRxKIH3m94KRTIwYUOxGz9hdeAQwIaielZ0",
        Certificate(b"a\x07b", 5),
    ),
    (
        b"Nov 30 18:39:24 vm sshd[2823]: Accepted publickey for root from 127.0.0.1 port 54278 \
ssh2: ED25519-CERT SHA256:RE0ZAsYmhXCrq75OR/3QxG+eyUgI1rLkxQpkbYWGCGI ID bob \
(serial 18446744073709551615) CA ED25519 SHA256:11kQQXkjpRxKIH3m94KRTIwYUOxGz9hdeAQwIaielZ0",
        Certificate(b"bob", u64::MAX),
    ),
    // The first line of a key ID with a line feed.
    (
        b"Accepted publickey for root from 127.0.0.1 port 38246 ssh2: ED25519-CERT \
SHA256:RE0ZAsYmhXCrq75OR/3QxG+eyUgI1rLkxQpkbYWGCGI ID a",
        Fault(Malformed),
    ),
    (
        b"Accepted publickey for root from 127.0.0.1 port 40172 ssh2: ED25519 \
MD5:9b:82:5f:c4:0a:c5:b5:1d:70:3b:2d:13:43:55:75:7f\r",
        Fault(Malformed),
    ),
    (
        b"Accepted publickey for win user from 127.0.0.1 port 34768 ssh2: ED25519 \
SHA256:wLTHBc5iWAcZbMN6HuvSvGTgDBqRmIm64izWMDwrwOs\r",
        Fault(Malformed),
    ),
    (
        b"Accepted hostbased for root from 127.0.0.1 port 52194 ssh2: ED25519 \
SHA256:SgFknqb8F9MmXxSsqiwpuqDBCrE1X3/e6Jlii1KPt5E\r",
        Fault(Hostbased),
    ),
    (b"Disconnected from user root ::1 port 41946\r", Nothing),
    (
        b"Accepted certificate ID \"bob\" (serial 5) signed by ED25519 CA \
SHA256:m0tI5f+XC8zGfNHtfzcn4MASdeU6tcbGcN3A3TjSa3Q via /tmp/h2/ten/room/authorities\r",
        Nothing,
    ),
    (
        b"Accepted key ED25519 SHA256:y+GWqmpB4VoIsZ4WY5Kn2MUyV/0LOZsQPNA0CocvQdk found at \
/tmp/h2/ten/room/allowed:1\r",
        Nothing,
    ),
    (b"y [preauth]\r", Nothing),
    (b"", Nothing),
];

// The text that sshd writes for a key ID, and the bytes of the ID. Without bytes sshd writes no
// such text, so the line is malformed.
static IDS: [(&[u8], Option<&[u8]>); 13] = [
    (b"", Some(b"")),
    (b" a  b ", Some(b" a  b ")),
    (b"a\\\\b", Some(b"a\\b")),
    (b"b\\303\\274rger", Some(b"b\xc3\xbcrger")),
    (b"a\tb", Some(b"a\tb")),
    (b"a\\200\\237\\377b", Some(b"a\x80\x9f\xffb")),
    (b"\\0019", Some(b"\x019")),
    (b"\\\\101", Some(b"\\101")),
    (
        b"x (serial 7) CA ED25519 SHA256:t3IBMl8aMQj6TGB5CcpZKu1m8CnOQt5Xzf8+qavlCuM",
        Some(b"x (serial 7) CA ED25519 SHA256:t3IBMl8aMQj6TGB5CcpZKu1m8CnOQt5Xzf8+qavlCuM"),
    ),
    (b"\\", None),
    (b"\\x41", None),
    (b"\\40", None),
    (b"\\400", None),
];

// Whether a query is about the key or the certificate that is expected.
fn is_about(subject: &Subject<'_>, wanted: &Wanted) -> bool {
    subject.plain.as_slice() == KEY_SHA256.as_slice()
        && match (&subject.cert, wanted) {
            (None, Key) => true,
            (Some(cert), Certificate(id, serial)) => {
                cert.serial == *serial
                    && cert.key_id == *id
                    && cert.authority == AUTHORITY_SHA256.as_slice()
            }
            _ => false,
        }
}

// Whether a line has the expected outcome, and its login the query.
fn is_as_wanted(rt: &impl Abort, alloc: Global, line: &[u8], wanted: &Wanted) -> bool {
    match &read_outcome(alloc, line).expect(rt, "there is memory") {
        Outcome::Other => matches!(wanted, Nothing),
        Outcome::Unread(fault) => match wanted {
            Fault(other) => fault == other,
            _ => false,
        },
        Outcome::Login { login, id } => {
            let known: &[u8] = match wanted {
                Certificate(id, _) => *id,
                _ => b"",
            };
            let subject = subject_of(alloc, login, id).expect(rt, "there is memory");
            id.as_slice() == known && is_about(&subject, wanted)
        }
    }
}

#[test]
fn lines_have_outcomes(rt: HostRuntime) {
    for (i, (line, wanted)) in LINES.iter().enumerate() {
        assert!(rt; is_as_wanted(&rt, rt.alloc(), line, wanted), "in row {i}");
    }
}

#[test]
fn key_ids_are_decoded(rt: HostRuntime) {
    for (i, (id, bytes)) in IDS.iter().enumerate() {
        let line = joined(rt.alloc(), &[BEFORE, *id, AFTER]).expect(&rt, "there is memory");
        let wanted = match bytes {
            Some(bytes) => Certificate(*bytes, 5),
            None => Fault(Malformed),
        };
        assert!(rt; is_as_wanted(&rt, rt.alloc(), &line, &wanted), "in row {i}");
    }
}

// A line of a long key ID, of which syslog takes 500 bytes.
#[test]
fn a_cut_line_has_no_login(rt: HostRuntime) {
    let id = repeated(rt.alloc(), b"y", 900).expect(&rt, "there is memory");
    let line = joined(rt.alloc(), &[BEFORE, &id]).expect(&rt, "there is memory");
    let line = line.as_slice();
    let cut = line.get(..500).expect(&rt, "it has more bytes");
    assert!(rt; is_as_wanted(&rt, rt.alloc(), cut, &Fault(Cut)));
    let shorter = line.get(..499).expect(&rt, "it has more bytes");
    assert!(rt; is_as_wanted(&rt, rt.alloc(), shorter, &Fault(Malformed)));
}
