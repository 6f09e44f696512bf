//! The names of keys and certificates that entries have.

/// A name: a serial number or a key ID under exactly one authority, which is empty for all
/// authorities, or a key, by its blob or by one of its hashes.
#[derive(Clone, Copy)]
pub enum Name<'a> {
    Serial(&'a [u8], u64),
    Id(&'a [u8], &'a [u8]),
    Key(&'a [u8]),
    /// The SHA-1 of this key.
    Sha1(&'a [u8]),
    /// The SHA-256 of this key.
    Sha256(&'a [u8]),
}
