//! Lists and parts of them (PROTOCOL.krl).

use crate::spelled::joined;
use std::alloc::{AllocError, Global};

/// The header of an empty list: version 1, date 0, no flags, no reserved string, no comment.
pub const HEADER: [u8; 44] = [
    0x53, 0x53, 0x48, 0x4b, 0x52, 0x4c, 0x0a, 0x00, 0, 0, 0, 1, 0, 0, 0, 0, 0, 0, 0, 1, 0, 0, 0, 0,
    0, 0, 0, 0, 0, 0, 0, 0, 0, 0, 0, 0, 0, 0, 0, 0, 0, 0, 0, 0,
];

/// The section of serial 5 of all authorities.
pub const FIVE: &[u8] = b"\x01\0\0\0\x15\0\0\0\0\0\0\0\0\x20\0\0\0\x08\0\0\0\0\0\0\0\x05";

/// The section of serials 1, 3, 5 and 7 of all authorities, in a bitmap.
pub const BITMAP: &[u8] =
    b"\x01\0\0\0\x1a\0\0\0\0\0\0\0\0\x22\0\0\0\x0d\0\0\0\0\0\0\0\x01\0\0\0\x01\x55";

/// The section of key ID `a` of all authorities.
pub const ID_A: &[u8] = b"\x01\0\0\0\x12\0\0\0\0\0\0\0\0\x23\0\0\0\x05\0\0\0\x01a";

/// The section of the published key.
pub const KEY_SECTION: &[u8] = b"\x02\0\0\0\x37\0\0\0\x33\0\0\0\x0bssh-ed25519\0\0\0\x20\
\xe3\x2a\xaa\x79\x15\xce\xb9\xb4\x49\xd1\xba\x50\xea\x2a\x28\xbb\
\x1a\x6e\x01\xf9\x0b\xda\x24\x5a\x2d\x1d\x87\x69\x7d\x18\xa2\x65";

/// The section of the SHA-256 of that key.
pub const SHA256_SECTION: &[u8] = b"\x05\0\0\0\x24\0\0\0\x20\
\xf8\x38\x98\xdf\x0b\xef\x57\xa4\xee\x24\x98\x5b\xa5\x98\xac\x17\
\xfc\xcb\x0c\x0d\x33\x3c\xc4\xaf\x1d\xd9\x2b\xe1\x4b\xc2\x3a\xa5";

/// The list with these bytes after its header.
pub fn list_of(alloc: Global, sections: &[u8]) -> Result<Vec<u8>, AllocError> {
    joined(alloc, &[&HEADER, sections])
}
