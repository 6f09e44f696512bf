//! Texts that sshd writes for the bytes of a key ID.

use login_lines::unescape;

// A text, and the bytes that it represents.
static ESCAPED: [(&str, Option<&[u8]>); 14] = [
    ("", Some(b"")),
    ("bob", Some(b"bob")),
    (r"back\\slash", Some(br"back\slash")),
    (r"b\303\274rger", Some(b"b\xc3\xbcrger")),
    (r"\001\177\377", Some(b"\x01\x7f\xff")),
    (r"\\040", Some(br"\040")),
    ("tab\there", Some(b"tab\there")),
    (r"a\nb\tc\rd", Some(b"a\nb\tc\rd")),
    (r"\a\b\v\f", Some(b"\x07\x08\x0b\x0c")),
    ("\\", None),
    (r"\40", None),
    (r"\400", None),
    (r"\x", None),
    (r"\08", None),
];

#[test]
fn escapes(rt: HostRuntime) {
    for (i, (text, wanted)) in ESCAPED.iter().enumerate() {
        let read = unescape(rt.alloc(), text.as_bytes()).expect(&rt, "there is memory");
        let same = match (read, wanted) {
            (None, None) => true,
            (Some(bytes), Some(wanted)) => bytes.as_slice() == *wanted,
            _ => false,
        };
        assert!(rt; same, "in row {i}");
    }
}
