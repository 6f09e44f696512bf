//! Which lines explain that a key or a certificate is revoked, on 2026-11-15.

use krl_entries::{Reason, Reasons};
use krl_fingerprints::KeysBy;
use krl_types::{CertNames, Subject};
use ssh_wire::Bytes;
use std::alloc::{AllocError, Global};
use std::process::Abort;
use test_fixtures::{CERT_LINE, GITHUB, GITHUB_LINE, GITHUB_PRINT, OTHER, OTHER_LINE, joined};
use text_entries::{Standing, TextFault};
use text_index::{Explanation, TextIndex};

// The day, by its number from 1970-01-01 on.
pub const TODAY: u64 = 20_772;

// The names of the texts.
const FILES: [&str; 2] = ["first.txt", "second.txt"];

// A certificate: its serial number, its key ID and the key of its authority.
#[derive(Clone, Copy)]
struct Cert {
    serial: u64,
    key_id: &'static [u8],
    authority: &'static [u8],
}

// Texts by the parts of each, what is revoked and why, the lines that explain it, each by the
// number of its text and its own, and the reasons that no line gives.
#[derive(Clone, Copy)]
struct Row {
    texts: &'static [&'static [&'static [u8]]],
    plain: &'static [u8],
    cert: Option<Cert>,
    reasons: &'static [Reason],
    lines: &'static [(usize, u64)],
    unnamed: &'static [Reason],
}

const RANGES: &[&[u8]] = &[
    b"ca: all\nserial: 5-9 # OPS-1\nserial: 8-20\n\nserial: 10\n@all serial: 0x8 # again\n",
    b"serial: 1-18446744073709551615",
];

const TWO_AUTHORITIES: &[&[u8]] = &[
    b"@o: ",
    OTHER_LINE,
    b"\n@g: ",
    GITHUB_LINE,
    b"\n@o id: bob\n@g id: bob\n@all id: bob\n@o serial: 7-9\n@g serial: 7\n@o id: bo\n",
];

const KEYS: &[&[u8]] = &[
    b"# keys\nkey: ",
    GITHUB_LINE,
    b"\n",
    OTHER_LINE,
    b" a comment\nsha1: ",
    GITHUB_LINE,
    b"\nsha256: ",
    GITHUB_LINE,
    b" # lost\nhash: ",
    GITHUB_PRINT,
    b"\nkey-blob: AQ==\n",
];

const ROWS: [Row; 21] = [
    // Ranges that overlap.
    Row {
        texts: &[RANGES],
        plain: GITHUB,
        cert: Some(Cert {
            serial: 8,
            key_id: b"a",
            authority: OTHER,
        }),
        reasons: &[Reason::SerialOfAll],
        lines: &[(0, 2), (0, 3), (0, 6), (0, 7)],
        unnamed: &[],
    },
    Row {
        texts: &[RANGES],
        plain: GITHUB,
        cert: Some(Cert {
            serial: 10,
            key_id: b"a",
            authority: OTHER,
        }),
        reasons: &[Reason::SerialOfAll],
        lines: &[(0, 3), (0, 5), (0, 7)],
        unnamed: &[],
    },
    Row {
        texts: &[RANGES],
        plain: GITHUB,
        cert: Some(Cert {
            serial: 20,
            key_id: b"a",
            authority: OTHER,
        }),
        reasons: &[Reason::SerialOfAll],
        lines: &[(0, 3), (0, 7)],
        unnamed: &[],
    },
    Row {
        texts: &[RANGES],
        plain: GITHUB,
        cert: Some(Cert {
            serial: 21,
            key_id: b"a",
            authority: OTHER,
        }),
        reasons: &[Reason::SerialOfAll],
        lines: &[(0, 7)],
        unnamed: &[],
    },
    Row {
        texts: &[RANGES],
        plain: GITHUB,
        cert: Some(Cert {
            serial: 18_446_744_073_709_551_615,
            key_id: b"a",
            authority: OTHER,
        }),
        reasons: &[Reason::SerialOfAll, Reason::Serial],
        lines: &[(0, 7)],
        unnamed: &[Reason::Serial],
    },
    // No certificate has the serial number 0.
    Row {
        texts: &[RANGES],
        plain: GITHUB,
        cert: Some(Cert {
            serial: 0,
            key_id: b"a",
            authority: OTHER,
        }),
        reasons: &[Reason::SerialOfAll],
        lines: &[],
        unnamed: &[Reason::SerialOfAll],
    },
    // Names under two authorities, and under all of them.
    Row {
        texts: &[TWO_AUTHORITIES],
        plain: GITHUB,
        cert: Some(Cert {
            serial: 7,
            key_id: b"bob",
            authority: OTHER,
        }),
        reasons: &[Reason::KeyId],
        lines: &[(0, 3)],
        unnamed: &[],
    },
    Row {
        texts: &[TWO_AUTHORITIES],
        plain: GITHUB,
        cert: Some(Cert {
            serial: 7,
            key_id: b"bob",
            authority: OTHER,
        }),
        reasons: &[Reason::KeyIdOfAll],
        lines: &[(0, 5)],
        unnamed: &[],
    },
    Row {
        texts: &[TWO_AUTHORITIES],
        plain: GITHUB,
        cert: Some(Cert {
            serial: 7,
            key_id: b"bob",
            authority: OTHER,
        }),
        reasons: &[
            Reason::Key,
            Reason::Serial,
            Reason::KeyId,
            Reason::KeyIdOfAll,
        ],
        lines: &[(0, 3), (0, 5), (0, 6)],
        unnamed: &[Reason::Key],
    },
    Row {
        texts: &[TWO_AUTHORITIES],
        plain: OTHER,
        cert: Some(Cert {
            serial: 7,
            key_id: b"bob",
            authority: GITHUB,
        }),
        reasons: &[Reason::Serial, Reason::KeyId],
        lines: &[(0, 4), (0, 7)],
        unnamed: &[],
    },
    // A key by its blob and by its hashes.
    Row {
        texts: &[KEYS],
        plain: GITHUB,
        cert: None,
        reasons: &[Reason::Key, Reason::KeySha1, Reason::KeySha256],
        lines: &[(0, 2), (0, 4), (0, 5), (0, 6)],
        unnamed: &[],
    },
    Row {
        texts: &[KEYS],
        plain: GITHUB,
        cert: None,
        reasons: &[Reason::KeySha256],
        lines: &[(0, 5), (0, 6)],
        unnamed: &[],
    },
    Row {
        texts: &[KEYS],
        plain: b"\x01",
        cert: None,
        reasons: &[Reason::Key, Reason::KeySha1],
        lines: &[(0, 7)],
        unnamed: &[Reason::KeySha1],
    },
    // The key of the authority, and not the key of the certificate.
    Row {
        texts: &[KEYS],
        plain: GITHUB,
        cert: Some(Cert {
            serial: 7,
            key_id: b"bob",
            authority: OTHER,
        }),
        reasons: &[Reason::Authority, Reason::AuthoritySha256],
        lines: &[(0, 3)],
        unnamed: &[Reason::AuthoritySha256],
    },
    // No reasons are asked for, and none is about a certificate.
    Row {
        texts: &[KEYS],
        plain: GITHUB,
        cert: None,
        reasons: &[],
        lines: &[],
        unnamed: &[],
    },
    Row {
        texts: &[RANGES],
        plain: GITHUB,
        cert: None,
        reasons: &[Reason::SerialOfAll, Reason::KeyIdOfAll],
        lines: &[],
        unnamed: &[Reason::SerialOfAll, Reason::KeyIdOfAll],
    },
    // The line of a certificate.
    Row {
        texts: &[&[b"until 2026-11-15 ", CERT_LINE, b" # gone"]],
        plain: GITHUB,
        cert: Some(Cert {
            serial: 7,
            key_id: b"a",
            authority: OTHER,
        }),
        reasons: &[Reason::Serial, Reason::KeyId],
        lines: &[(0, 1)],
        unnamed: &[Reason::KeyId],
    },
    // A line that is over.
    Row {
        texts: &[&[b"until 2026-11-14 @all id: a\nuntil 2026-11-15 @all id: a\n@all id-hex: 61"]],
        plain: GITHUB,
        cert: Some(Cert {
            serial: 7,
            key_id: b"a",
            authority: OTHER,
        }),
        reasons: &[Reason::KeyIdOfAll],
        lines: &[(0, 2), (0, 3)],
        unnamed: &[],
    },
    // Names go on in the second text, and the current authority does not.
    Row {
        texts: &[
            &[b"@o: ", OTHER_LINE, b"\nca: all\nid: a # first\n"],
            &[b"@o serial: 6-8\nca: all\nid: b\nid: a"],
        ],
        plain: GITHUB,
        cert: Some(Cert {
            serial: 7,
            key_id: b"a",
            authority: OTHER,
        }),
        reasons: &[Reason::Serial, Reason::KeyIdOfAll],
        lines: &[(0, 3), (1, 1), (1, 4)],
        unnamed: &[],
    },
    // Bytes that are a key ID of one line, and the key or the front of serial numbers of another.
    Row {
        texts: &[&[
            b"@all id-hex: 01\nkey-blob: AQ==\n@all serial: 1\n@all id-hex: 0101010101010101\n\
@all serial: 72340172838076673\n",
        ]],
        plain: b"\x01",
        cert: Some(Cert {
            serial: 72_340_172_838_076_673,
            key_id: b"\x01",
            authority: OTHER,
        }),
        reasons: &[Reason::KeyIdOfAll, Reason::SerialOfAll],
        lines: &[(0, 1), (0, 5)],
        unnamed: &[],
    },
    // Nothing but comments.
    Row {
        texts: &[&[b""], &[b"# nothing\n\n"]],
        plain: GITHUB,
        cert: None,
        reasons: &[Reason::Key],
        lines: &[],
        unnamed: &[Reason::Key],
    },
];

/// These reasons.
pub fn reasons_of(reasons: &[Reason]) -> Reasons {
    let mut bits = 0u16;
    for reason in reasons {
        bits |= 1 << *reason as u16;
    }
    Reasons { bits }
}

/// A plain key, or a certificate of it.
fn subject_of<'a>(alloc: Global, rt: &impl Abort, row: &'a Row) -> Subject<'a> {
    let plain = Vec::from_slice(alloc, row.plain).expect(rt, "there is memory");
    let cert = match &row.cert {
        None => None,
        Some(cert) => Some(CertNames {
            serial: cert.serial,
            key_id: cert.key_id,
            authority: cert.authority,
        }),
    };
    Subject {
        plain: Bytes::from_vec(plain),
        cert,
    }
}

// Whether the text with this number has the name.
fn is_named(file: usize, name: &str) -> bool {
    match FILES.get(file) {
        Some(known) => *known == name,
        None => false,
    }
}

// Whether the lines are these, each by the number of its text and its own.
fn are(explanation: &Explanation<'_>, wanted: &[(usize, u64)]) -> bool {
    if explanation.lines.len() != wanted.len() {
        return false;
    }
    for (line, (file, number)) in explanation.lines.iter().zip(wanted.iter()) {
        if line.number != *number || !is_named(*file, line.file) {
            return false;
        }
    }
    true
}

// A text and its name.
#[derive(Drop)]
struct Text<'t> {
    file: &'t str,
    bytes: Vec<u8>,
}

// The index of texts.
fn index_of<'t>(alloc: Global, texts: &'t [Text<'t>]) -> Result<TextIndex<'t>, TextFault> {
    let mut standing = Standing::new(alloc, TODAY);
    let mut index = TextIndex::new(alloc, KeysBy::Blob);
    for text in texts {
        index.add_text(alloc, &mut standing, text.file, text.bytes.as_slice())?;
    }
    Ok(index)
}

// The texts of a row.
fn texts_of(alloc: Global, row: &Row) -> Result<Vec<Text<'static>>, AllocError> {
    let mut texts = Vec::new(alloc);
    for (parts, file) in row.texts.iter().zip(FILES.iter()) {
        let bytes = joined(alloc, *parts)?;
        texts.push(Text { file: *file, bytes })?;
    }
    Ok(texts)
}

// Tests a row.
fn explains(rt: &impl Abort, alloc: Global, i: usize, row: &Row) {
    let texts = texts_of(alloc, row).expect(rt, "there is memory");
    let index = index_of(alloc, texts.as_slice()).expect(rt, "the texts are right");
    let subject = subject_of(alloc, rt, row);
    let explanation = index
        .explain(alloc, &subject, reasons_of(row.reasons))
        .expect(rt, "there is memory");
    assert!(rt; are(&explanation, row.lines), "the lines in row {i}");
    let unnamed = reasons_of(row.unnamed);
    assert!(rt;
        explanation.unnamed.bits == unnamed.bits,
        "the reasons in row {i}"
    );
}

#[test]
fn lines_explain(rt: HostRuntime) {
    for (i, row) in ROWS.iter().enumerate() {
        explains(&rt, rt.alloc(), i, row);
    }
}

// The bytes of a line are those of the text, with the carriage return and the comment.
#[test]
fn lines_as_they_are(rt: HostRuntime) {
    let alloc = rt.alloc();
    let text: &[u8] = b" \t# c\r\n@all\tserial: 5-9 \t# OPS-1 \xc3\xbc\r\n@all serial: 6";
    let mut standing = Standing::new(alloc, TODAY);
    let mut index = TextIndex::new(alloc, KeysBy::Blob);
    let added = index.add_text(alloc, &mut standing, "a", text);
    assert!(rt; added.is_ok());
    let row = Row {
        texts: &[],
        plain: GITHUB,
        cert: Some(Cert {
            serial: 6,
            key_id: b"",
            authority: OTHER,
        }),
        reasons: &[],
        lines: &[],
        unnamed: &[],
    };
    let subject = subject_of(alloc, &rt, &row);
    let explanation = index
        .explain(alloc, &subject, reasons_of(&[Reason::SerialOfAll]))
        .expect(&rt, "there is memory");
    let [first, second] = explanation.lines.as_slice() else {
        assert!(rt; false, "there are two lines");
        return;
    };
    assert!(rt; first.text == b"@all\tserial: 5-9 \t# OPS-1 \xc3\xbc\r".as_slice());
    assert!(rt; second.text == b"@all serial: 6".as_slice());
}

// The fault is the first one, as `read_text` reports it.
#[test]
fn faults_are_reported(rt: HostRuntime) {
    let alloc = rt.alloc();
    let mut standing = Standing::new(alloc, TODAY);
    let mut index = TextIndex::new(alloc, KeysBy::Blob);
    let added = index.add_text(alloc, &mut standing, "a", b"@all id: a\n\nid: b\nid: c");
    let Err(fault) = added else {
        assert!(rt; false, "no authority is current");
        return;
    };
    assert!(rt; fault.line == 3);
    let cause = format!(in alloc; "{}", fault.cause).expect(&rt, "there is memory");
    assert!(rt; cause.as_str() == "text 1 Spec, spec 4 NoAuthority");
}
