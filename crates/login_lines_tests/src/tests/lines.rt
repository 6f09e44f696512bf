//! Lines in the forms of OpenSSH 9.2p1, and lines that a key ID, a user's name or a full buffer may
//! make of them.

use login_lines::LoginFault::{self, Hostbased, Malformed};
use login_lines::{Login, Step, login_of};
use std::alloc::{AllocError, Global};

pub const ACCEPTED: &str = "Accepted publickey for root from 127.0.0.1 port 44864 ssh2: ";

const PARTIAL: &str = "Partial publickey for root from 127.0.0.1 port 44864 ssh2: ";

const HOSTBASED: &str = "Accepted hostbased for root from 127.0.0.1 port 44864 ssh2: ";

const PRINT: &str = " SHA256:7jMnjszDuANMRE0kCMpvAX96os8WD686y6bVf561wmY";

pub const CERT: &str = "ED25519-CERT SHA256:kqHCCxK+knGTIxdzULtolrbtR0xw3NTNWAxsNAnp+dg ID ";

pub const CA: &str = ") CA ED25519 SHA256:Ht30mmzywqC+v6eSF9mqMU0hwul0BLKELO2fGrUtpiU";

const TAG: &str = "Nov 29 06:07:06 host sshd[812]: ";

pub const SESSION: &str = "2026-11-29T06:07:06.123456+00:00 host sshd-session[812]: ";

// The bytes that these fingerprints encode.
const KEY_SHA256: [u8; 32] = [
    238, 51, 39, 142, 204, 195, 184, 3, 76, 68, 77, 36, 8, 202, 111, 1, 127, 122, 162, 207, 22, 15,
    175, 58, 203, 166, 213, 127, 158, 181, 194, 102,
];

const CERT_SHA256: [u8; 32] = [
    146, 161, 194, 11, 18, 190, 146, 113, 147, 35, 23, 115, 80, 187, 104, 150, 182, 237, 71, 76,
    112, 220, 212, 205, 88, 12, 108, 52, 9, 233, 249, 216,
];

const CA_SHA256: [u8; 32] = [
    30, 221, 244, 154, 108, 242, 194, 160, 190, 191, 167, 146, 23, 217, 170, 49, 77, 33, 194, 233,
    116, 4, 178, 132, 44, 237, 159, 26, 181, 45, 166, 37,
];

// The expected result for a line.
enum Wanted {
    Nothing,
    Fault(LoginFault),
    // A login by a key of this kind, with the fingerprint above.
    Key(&'static str),
    // A login by a certificate with this key ID and serial number, of the authority above.
    Certificate(&'static str, u64),
}

use Wanted::{Certificate, Fault, Key, Nothing};

// The text before a message, the parts of the message, and the expected result.
static LINES: [(&str, &[&str], Wanted); 52] = [
    ("", &[ACCEPTED, "RSA", PRINT, "\r"], Key("RSA")),
    ("", &[PARTIAL, "RSA", PRINT, "\r"], Key("RSA")),
    (TAG, &[ACCEPTED, "ECDSA", PRINT], Key("ECDSA")),
    (SESSION, &[PARTIAL, "ED25519", PRINT], Key("ED25519")),
    // A device key may have a count of signatures.
    (
        "",
        &[ACCEPTED, "ED25519-SK", PRINT, ", signature count = 12"],
        Key("ED25519-SK"),
    ),
    (
        "",
        &[ACCEPTED, "ED25519-SK", PRINT, ", signature count = "],
        Fault(Malformed),
    ),
    (
        "",
        &[ACCEPTED, "ED25519-SK", PRINT, ", signature count = 1 "],
        Fault(Malformed),
    ),
    // A certificate's key ID is any text.
    (
        TAG,
        &[ACCEPTED, CERT, "bob (serial 42", CA],
        Certificate("bob", 42),
    ),
    (
        SESSION,
        &[PARTIAL, CERT, "bob (serial 0", CA],
        Certificate("bob", 0),
    ),
    (
        "",
        &[ACCEPTED, CERT, " (serial 107", CA, "\r"],
        Certificate("", 107),
    ),
    (
        "",
        &[ACCEPTED, CERT, " two words  (serial 1", CA],
        Certificate(" two words ", 1),
    ),
    (
        "",
        &[ACCEPTED, CERT, r"back\\slash (serial 100", CA],
        Certificate(r"back\\slash", 100),
    ),
    (
        "",
        &[ACCEPTED, CERT, r"b\303\274rger (serial 2", CA],
        Certificate(r"b\303\274rger", 2),
    ),
    (
        "",
        &[ACCEPTED, CERT, "tab\there (serial 102", CA],
        Certificate("tab\there", 102),
    ),
    // An ID that looks like the rest of a line, an end, a tag or a login.
    (
        "",
        &[
            ACCEPTED,
            CERT,
            "bob (serial 9) CA ED25519 SHA256:x (serial 42",
            CA,
            "\r",
        ],
        Certificate("bob (serial 9) CA ED25519 SHA256:x", 42),
    ),
    (
        "",
        &[
            ACCEPTED,
            CERT,
            "a, signature count = 5 (serial 108",
            CA,
            ", signature count = 6",
        ],
        Certificate("a, signature count = 5", 108),
    ),
    (
        "",
        &[ACCEPTED, CERT, "sshd[1]: x (serial 7", CA],
        Certificate("sshd[1]: x", 7),
    ),
    (
        TAG,
        &[ACCEPTED, CERT, "sshd[1]: Invalid user (serial 7", CA],
        Certificate("sshd[1]: Invalid user", 7),
    ),
    // The greatest serial number, and the next.
    (
        "",
        &[ACCEPTED, CERT, "bob (serial 18446744073709551615", CA],
        Certificate("bob", 18446744073709551615),
    ),
    (
        "",
        &[ACCEPTED, CERT, "bob (serial 18446744073709551616", CA],
        Fault(Malformed),
    ),
    (
        "",
        &[ACCEPTED, CERT, "bob (serial +1", CA],
        Fault(Malformed),
    ),
    ("", &[ACCEPTED, CERT, "bob (serial ", CA], Fault(Malformed)),
    // An ID with a line feed ends the line, where sshd logs to a file.
    ("", &[ACCEPTED, CERT, "line"], Fault(Malformed)),
    // Other ends.
    ("", &[ACCEPTED, "RSA", PRINT, " "], Fault(Malformed)),
    ("", &[ACCEPTED, "RSA", PRINT, "\r\r"], Fault(Malformed)),
    ("", &[ACCEPTED, "RSA", PRINT, "="], Fault(Malformed)),
    (
        "",
        &[ACCEPTED, CERT, "bob (serial 1", CA, " x"],
        Fault(Malformed),
    ),
    // No SHA-256, a character too few, and unused bits that are not zero.
    (
        "",
        &[
            ACCEPTED,
            "ED25519 MD5:04:43:9d:1d:88:e1:2d:a9:d0:11:b2:a6:5b:6a:0b:ef",
        ],
        Fault(Malformed),
    ),
    (
        "",
        &[
            ACCEPTED,
            "RSA SHA256:7jMnjszDuANMRE0kCMpvAX96os8WD686y6bVf561wm",
        ],
        Fault(Malformed),
    ),
    (
        "",
        &[
            ACCEPTED,
            "RSA SHA256:7jMnjszDuANMRE0kCMpvAX96os8WD686y6bVf561wmZ",
        ],
        Fault(Malformed),
    ),
    ("", &[ACCEPTED, "rsa", PRINT], Fault(Malformed)),
    // A user's name has no space, and is not empty.
    (
        "",
        &[
            "Accepted publickey for DOMAIN user from ::1 port 1 ssh2: ",
            "RSA",
            PRINT,
        ],
        Fault(Malformed),
    ),
    (
        "",
        &[
            "Accepted publickey for  from ::1 port 1 ssh2: ",
            "RSA",
            PRINT,
        ],
        Fault(Malformed),
    ),
    (
        "",
        &[
            "Accepted publickey for root from ::1 port x ssh2: ",
            "RSA",
            PRINT,
        ],
        Fault(Malformed),
    ),
    ("", &["Accepted publickey for "], Fault(Malformed)),
    (TAG, &["Partial publickey for "], Fault(Malformed)),
    // A login by the key of a host.
    (
        "",
        &[HOSTBASED, "RSA", PRINT, ", client user \"root\""],
        Fault(Hostbased),
    ),
    (TAG, &[HOSTBASED, "RSA", PRINT], Fault(Hostbased)),
    ("", &["Accepted hostbased for "], Fault(Hostbased)),
    // Other messages.
    ("", &[], Nothing),
    (
        "",
        &[
            "Authentication key ECDSA",
            PRINT,
            " revoked by file /etc/ssh/krl",
        ],
        Nothing,
    ),
    (
        "",
        &["Failed publickey for root from ::1 port 1 ssh2: RSA", PRINT],
        Nothing,
    ),
    (
        "",
        &[
            "Postponed publickey for root from ::1 port 1 ssh2: RSA",
            PRINT,
        ],
        Nothing,
    ),
    (
        TAG,
        &["Accepted password for root from ::1 port 1 ssh2"],
        Nothing,
    ),
    (TAG, &["Accepted publickey"], Nothing),
    // A name that is no user's, with a prefix and without one.
    (
        "",
        &["Invalid user Accepted publickey for x from ::1 port 1 ssh2 from ::1 port 2"],
        Nothing,
    ),
    (
        TAG,
        &[
            "Invalid user sshd[1]: ",
            ACCEPTED,
            "RSA",
            PRINT,
            " from ::1 port 2",
        ],
        Nothing,
    ),
    (
        "",
        &[
            "Invalid user sshd[1]: ",
            ACCEPTED,
            "RSA",
            PRINT,
            " from ::1 port 2",
        ],
        Fault(Malformed),
    ),
    // Other programs.
    (
        "Nov 29 06:07:06 host xsshd[812]: ",
        &[ACCEPTED, "RSA", PRINT],
        Nothing,
    ),
    (
        "Nov 29 06:07:06 host sshd[x]: ",
        &[ACCEPTED, "RSA", PRINT],
        Nothing,
    ),
    (
        "Nov 29 06:07:06 host sshd[]: ",
        &[ACCEPTED, "RSA", PRINT],
        Nothing,
    ),
    (
        "Nov 29 06:07:06 host sshd: ",
        &[ACCEPTED, "RSA", PRINT],
        Nothing,
    ),
];

pub fn joined(alloc: Global, prefix: &str, parts: &[&str]) -> Result<Vec<u8>, AllocError> {
    let mut line = Vec::from_slice(alloc, prefix.as_bytes())?;
    for part in parts {
        line.extend_from_slice(part.as_bytes())?;
    }
    Ok(line)
}

// Whether a login is by a key of a kind, or by a certificate.
fn is_by(login: &Login<'_>, wanted: &Wanted) -> bool {
    match (wanted, login.certificate) {
        (Key(kind), None) => { login.key.kind == kind.as_bytes() && login.key.sha256 == KEY_SHA256 }
        (Certificate(id, serial), Some(certificate)) => {
            login.key.kind == b"ED25519-CERT".as_slice()
                && login.key.sha256 == CERT_SHA256
                && certificate.id == id.as_bytes()
                && certificate.serial == *serial
                && certificate.authority.kind == b"ED25519".as_slice()
                && certificate.authority.sha256 == CA_SHA256
        }
        _ => false,
    }
}

// Whether a login has the text before its message, and the user and the client of all lines.
fn is_at(login: &Login<'_>, prefix: &str, is_partial: bool) -> bool {
    login.prefix == prefix.as_bytes()
        && matches!(login.step, Step::Partial) == is_partial
        && login.user == b"root".as_slice()
        && login.address == b"127.0.0.1".as_slice()
        && login.port == b"44864".as_slice()
}

// Whether a line reports what its row has.
fn is_reported(line: &[u8], prefix: &str, is_partial: bool, wanted: &Wanted) -> bool {
    match login_of(line) {
        Ok(None) => matches!(wanted, Nothing),
        Ok(Some(login)) => is_at(&login, prefix, is_partial) && is_by(&login, wanted),
        Err(fault) => is_fault(fault, wanted),
    }
}

fn is_fault(fault: LoginFault, wanted: &Wanted) -> bool {
    match wanted {
        Fault(other) => fault == *other,
        _ => false,
    }
}

#[test]
fn lines(rt: HostRuntime) {
    for (i, (prefix, parts, wanted)) in LINES.iter().enumerate() {
        let line = joined(rt.alloc(), prefix, parts).expect(&rt, "there is memory");
        let is_partial = parts.first() == Some(&PARTIAL);
        assert!(rt;
            is_reported(&line, prefix, is_partial, wanted),
            "in row {i}"
        );
    }
}
