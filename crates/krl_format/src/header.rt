//! The header of a list.

use ssh_wire::Bytes;

/// The bytes at the beginning of each list.
pub const MAGIC: &[u8] = b"SSHKRL\n\0";

/// The magic as a number of eight bytes.
pub const MAGIC_NUMBER: u64 = 0x5353_484b_524c_0a00;

/// At most this many bytes of a list are read.
pub const LIMIT: u64 = 67_108_864;

/// The header of a revocation list: its version, its date in seconds since 1970, and a comment,
/// which may be any bytes.
#[derive(Drop)]
pub struct Header {
    /// The version of the list.
    pub version: u64,
    /// The date of the list, in seconds since 1970.
    pub date: u64,
    /// A comment, which may be empty and need not be text.
    pub comment: Bytes,
}

/// The version of a key revocation list, and when it was made.
#[derive(Clone, Copy)]
pub struct Stated {
    /// The version.
    pub version: u64,
    /// When the list was made, in seconds since 1970.
    pub generated: u64,
}
