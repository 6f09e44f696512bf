//! Queries that give keys and authorities by their fingerprints: of the list of the fingerprints of
//! a list, and of an index of texts.

use crate::tests::found::{TODAY, reasons_of};
use krl_entries::{Reason, Revocations};
use krl_fingerprints::{KeysBy, fingerprint_list, list_by};
use krl_types::{CertNames, Subject};
use span_sets::Held;
use ssh_wire::Bytes;
use std::alloc::{AllocError, Global};
use std::process::Abort;
use std::test::Fail;
use test_fixtures::{GITHUB, GITHUB_LINE, OTHER, OTHER_LINE, joined};
use text_entries::Standing;
use text_index::TextIndex;

/// The SHA-256 of `GITHUB`.
pub const GITHUB_SHA256: [u8; 32] = [
    248, 56, 152, 223, 11, 239, 87, 164, 238, 36, 152, 91, 165, 152, 172, 23, 252, 203, 12, 13, 51,
    60, 196, 175, 29, 217, 43, 225, 75, 194, 58, 165,
];

// The SHA-256 of `OTHER`.
const OTHER_SHA256: [u8; 32] = [
    73, 7, 194, 250, 244, 219, 45, 68, 103, 245, 196, 228, 87, 18, 18, 241, 241, 144, 220, 82, 141,
    0, 149, 158, 7, 74, 53, 223, 223, 160, 87, 131,
];

// The blob of the Ed25519 key of 32 bytes 0x22, its SHA-256 and its SHA-1.
const THIRD: &[u8] = b"\0\0\0\x0bssh-ed25519\0\0\0\x20\
\x22\x22\x22\x22\x22\x22\x22\x22\x22\x22\x22\x22\x22\x22\x22\x22\
\x22\x22\x22\x22\x22\x22\x22\x22\x22\x22\x22\x22\x22\x22\x22\x22";

const THIRD_SHA256: [u8; 32] = [
    13, 156, 153, 44, 118, 36, 131, 223, 11, 93, 224, 76, 173, 99, 219, 215, 35, 46, 45, 148, 90,
    187, 99, 9, 135, 56, 209, 1, 156, 15, 0, 117,
];

const THIRD_SHA1: [u8; 20] = [
    196, 254, 234, 4, 136, 51, 79, 233, 55, 5, 226, 235, 60, 113, 17, 67, 44, 21, 60, 70,
];

// The blob of the Ed25519 key of 32 bytes 0x33, and its SHA-256: an authority of the list.
const AUTHORITY: &[u8] = b"\0\0\0\x0bssh-ed25519\0\0\0\x20\
\x33\x33\x33\x33\x33\x33\x33\x33\x33\x33\x33\x33\x33\x33\x33\x33\
\x33\x33\x33\x33\x33\x33\x33\x33\x33\x33\x33\x33\x33\x33\x33\x33";

const AUTHORITY_SHA256: [u8; 32] = [
    213, 197, 212, 28, 172, 136, 207, 26, 221, 245, 5, 89, 45, 227, 20, 53, 137, 72, 164, 188, 162,
    130, 152, 183, 165, 114, 52, 199, 180, 203, 97, 230,
];

// The fingerprint of a key that nothing names.
const UNKNOWN: [u8; 32] = [7; 32];

// A list with an entry of each kind: a key, the SHA-256 of another one, the SHA-1 of a third one,
// and serial numbers and a key ID of an authority and of all of them.
fn one_of_each(alloc: Global) -> Result<Revocations<Held>, AllocError> {
    let mut list: Revocations<Held> = Revocations::new(alloc);
    list.add_key(GITHUB)?;
    list.add_sha256(&OTHER_SHA256)?;
    list.add_sha1(&THIRD_SHA1)?;
    list.add_serials(AUTHORITY, 5, 9)?;
    list.add_id(AUTHORITY, b"bob")?;
    list.add_serials(b"", 20, 30)?;
    list.add_id(b"", b"eve")?;
    Ok(list)
}

// A query: the plain key, the serial number, the key ID and the authority of a certificate if it is
// one, and the reasons that the answer gives.
type Row = (
    &'static [u8],
    Option<(u64, &'static [u8], &'static [u8])>,
    &'static [Reason],
);

// Queries by fingerprints of the list above.
const BY_FINGERPRINTS: [Row; 22] = [
    (&GITHUB_SHA256, None, &[Reason::Key]),
    (&OTHER_SHA256, None, &[Reason::KeySha256]),
    // A key that only a SHA-1 names is not found, by whatever it is given.
    (&THIRD_SHA256, None, &[]),
    (&THIRD_SHA1, None, &[]),
    (THIRD, None, &[]),
    (&AUTHORITY_SHA256, None, &[]),
    (&UNKNOWN, None, &[]),
    // A blob is no fingerprint.
    (GITHUB, None, &[]),
    (OTHER, None, &[]),
    // The ends of the serial numbers of an authority and of all of them.
    (&UNKNOWN, Some((4, b"a", &AUTHORITY_SHA256)), &[]),
    (
        &UNKNOWN,
        Some((5, b"a", &AUTHORITY_SHA256)),
        &[Reason::Serial],
    ),
    (
        &UNKNOWN,
        Some((9, b"a", &AUTHORITY_SHA256)),
        &[Reason::Serial],
    ),
    (&UNKNOWN, Some((10, b"a", &AUTHORITY_SHA256)), &[]),
    (&UNKNOWN, Some((5, b"bob", &UNKNOWN)), &[]),
    (&UNKNOWN, Some((5, b"bob", AUTHORITY)), &[]),
    (&UNKNOWN, Some((20, b"a", &UNKNOWN)), &[Reason::SerialOfAll]),
    (&UNKNOWN, Some((31, b"a", &UNKNOWN)), &[]),
    // Key IDs.
    (
        &UNKNOWN,
        Some((1, b"bob", &AUTHORITY_SHA256)),
        &[Reason::KeyId],
    ),
    (&UNKNOWN, Some((1, b"eve", &UNKNOWN)), &[Reason::KeyIdOfAll]),
    // The keys of authorities.
    (
        &UNKNOWN,
        Some((1, b"a", &GITHUB_SHA256)),
        &[Reason::Authority],
    ),
    (
        &UNKNOWN,
        Some((1, b"a", &OTHER_SHA256)),
        &[Reason::AuthoritySha256],
    ),
    (
        &GITHUB_SHA256,
        Some((30, b"bob", &AUTHORITY_SHA256)),
        &[Reason::Key, Reason::SerialOfAll, Reason::KeyId],
    ),
];

// Queries by blobs of the same list.
const BY_BLOBS: [Row; 7] = [
    (GITHUB, None, &[Reason::Key]),
    (OTHER, None, &[Reason::KeySha256]),
    (THIRD, None, &[Reason::KeySha1]),
    (&GITHUB_SHA256, None, &[]),
    (&OTHER_SHA256, None, &[]),
    (
        THIRD,
        Some((5, b"bob", AUTHORITY)),
        &[Reason::KeySha1, Reason::Serial, Reason::KeyId],
    ),
    (&UNKNOWN, Some((5, b"bob", &AUTHORITY_SHA256)), &[]),
];

// The query of a row.
fn subject_of(rt: &impl Abort, alloc: Global, row: &Row) -> Subject<'static> {
    let plain = Vec::from_slice(alloc, row.0).expect(rt, "there is memory");
    let cert = match row.1 {
        None => None,
        Some((serial, key_id, authority)) => Some(CertNames {
            serial,
            key_id,
            authority,
        }),
    };
    Subject {
        plain: Bytes::from_vec(plain),
        cert,
    }
}

// Checks that a list has the reasons of each row.
fn answers(rt: &impl Abort, alloc: Global, list: &Revocations<Held>, rows: &[Row]) {
    for (i, row) in rows.iter().enumerate() {
        let subject = subject_of(rt, alloc, row);
        let wanted = reasons_of(row.2);
        assert!(rt; list.reasons(&subject).bits == wanted.bits, "in row {i}");
        assert!(rt; list.query(&subject) == wanted.any(), "in row {i}");
    }
}

#[test]
fn a_list_of_fingerprints(rt: HostRuntime) -> Result<(), Fail> {
    let alloc = rt.alloc();
    let list = one_of_each(alloc)?;
    let prints = fingerprint_list(alloc, &list)?;
    answers(&rt, alloc, &prints, &BY_FINGERPRINTS);
    // The list is the same as before.
    answers(&rt, alloc, &list, &BY_BLOBS);
    Ok(())
}

#[test]
fn lists_for_each_way_of_queries(rt: HostRuntime) -> Result<(), Fail> {
    let alloc = rt.alloc();
    let prints = list_by(alloc, KeysBy::Fingerprint, one_of_each(alloc)?)?;
    answers(&rt, alloc, &prints, &BY_FINGERPRINTS);
    let list = list_by(alloc, KeysBy::Blob, one_of_each(alloc)?)?;
    answers(&rt, alloc, &list, &BY_BLOBS);
    Ok(())
}

// The key of a list and its SHA-256 are two reasons, and so they are by the fingerprint.
#[test]
fn a_key_and_its_hash(rt: HostRuntime) -> Result<(), Fail> {
    let alloc = rt.alloc();
    let mut list: Revocations<Held> = Revocations::new(alloc);
    list.add_key(GITHUB)?;
    list.add_sha256(&GITHUB_SHA256)?;
    let prints = fingerprint_list(alloc, &list)?;
    let rows: [Row; 1] = [(&GITHUB_SHA256, None, &[Reason::Key, Reason::KeySha256])];
    answers(&rt, alloc, &prints, &rows);
    Ok(())
}

// A text with an entry of each kind.
const TEXT: &[&[u8]] = &[
    b"@o: ",
    OTHER_LINE,
    b"\nkey: ",
    GITHUB_LINE,
    b" # OPS-1\nhash: SHA256:+DiY3wvvV6TuJJhbpZisF/zLDA0zPMSvHdkr4UvCOqU\nkey: ",
    OTHER_LINE,
    b"\nsha1: ",
    GITHUB_LINE,
    b"\n@o serial: 5-9\n@o id: bob\n@all serial: 8\n@all id: bob\n",
];

// Each reason that a certificate may have.
const ALL: &[Reason] = &Reason::ALL;

// The way of queries of an index, the key and the authority of a certificate with the serial number
// 8 and the key ID bob, the lines that explain all reasons, and the reasons that no line gives.
const EXPLAINED: [(KeysBy, &[u8], &[u8], &[u64], &[Reason]); 4] = [
    (
        KeysBy::Fingerprint,
        &GITHUB_SHA256,
        &OTHER_SHA256,
        &[2, 3, 4, 6, 7, 8, 9],
        &[
            Reason::KeySha1,
            Reason::AuthoritySha1,
            Reason::AuthoritySha256,
        ],
    ),
    (
        KeysBy::Fingerprint,
        GITHUB,
        OTHER,
        &[8, 9],
        &[
            Reason::Key,
            Reason::KeySha1,
            Reason::KeySha256,
            Reason::Authority,
            Reason::AuthoritySha1,
            Reason::AuthoritySha256,
            Reason::Serial,
            Reason::KeyId,
        ],
    ),
    (
        KeysBy::Blob,
        GITHUB,
        OTHER,
        &[2, 3, 4, 5, 6, 7, 8, 9],
        &[Reason::AuthoritySha1, Reason::AuthoritySha256],
    ),
    (
        KeysBy::Blob,
        &GITHUB_SHA256,
        &OTHER_SHA256,
        &[8, 9],
        &[
            Reason::Key,
            Reason::KeySha1,
            Reason::KeySha256,
            Reason::Authority,
            Reason::AuthoritySha1,
            Reason::AuthoritySha256,
            Reason::Serial,
            Reason::KeyId,
        ],
    ),
];

#[test]
fn texts_explain_by_fingerprints(rt: HostRuntime) -> Result<(), Fail> {
    let alloc = rt.alloc();
    let text = joined(alloc, TEXT)?;
    for (i, (by, plain, authority, lines, unnamed)) in EXPLAINED.iter().enumerate() {
        let mut index = TextIndex::new(alloc, *by);
        let mut standing = Standing::new(alloc, TODAY);
        let added = index.add_text(alloc, &mut standing, "list.txt", &text);
        assert!(rt; added.is_ok());
        index.name_authorities(&standing)?;
        let subject = subject_of(&rt, alloc, &(plain, Some((8, b"bob", authority)), &[]));
        let explanation = index.explain(alloc, &subject, reasons_of(ALL))?;
        assert!(rt; explanation.lines.len() == lines.len(), "in row {i}");
        for (line, number) in explanation.lines.iter().zip(lines.iter()) {
            assert!(rt;
                line.number == *number && line.file == "list.txt",
                "in row {i}"
            );
        }
        let wanted = reasons_of(unnamed);
        assert!(rt; explanation.unnamed.bits == wanted.bits, "in row {i}");
    }
    Ok(())
}

// A text that gives names to two authorities, one of which has three.
const NAMING: &[&[u8]] = &[
    b"@users: ",
    OTHER_LINE,
    b"\n@third: ",
    GITHUB_LINE,
    b"\n@hosts: ",
    OTHER_LINE,
    b"\n@all-users: ",
    OTHER_LINE,
];

// The way of queries, an authority, and the name that it has then.
const NAMED: [(KeysBy, &[u8], &[u8]); 6] = [
    (KeysBy::Blob, OTHER, b"all-users"),
    (KeysBy::Blob, GITHUB, b"third"),
    (KeysBy::Blob, &OTHER_SHA256, b""),
    (KeysBy::Fingerprint, &OTHER_SHA256, b"all-users"),
    (KeysBy::Fingerprint, &GITHUB_SHA256, b"third"),
    (KeysBy::Fingerprint, OTHER, b""),
];

#[test]
fn authorities_have_their_first_names(rt: HostRuntime) -> Result<(), Fail> {
    let alloc = rt.alloc();
    let text = joined(alloc, NAMING)?;
    for (i, (by, authority, name)) in NAMED.iter().enumerate() {
        let mut index = TextIndex::new(alloc, *by);
        let mut standing = Standing::new(alloc, TODAY);
        let added = index.add_text(alloc, &mut standing, "list.txt", &text);
        assert!(rt; added.is_ok());
        let subject = subject_of(&rt, alloc, &(&UNKNOWN, Some((8, b"bob", authority)), &[]));
        let before = index.explain(alloc, &subject, reasons_of(ALL))?;
        assert!(rt; before.authority.is_none(), "in row {i}");
        index.name_authorities(&standing)?;
        let after = index.explain(alloc, &subject, reasons_of(ALL))?;
        match &after.authority {
            Some(found) => assert!(rt; found.as_slice() == *name, "in row {i}"),
            None => assert!(rt; name.is_empty(), "in row {i}"),
        }
    }
    Ok(())
}
