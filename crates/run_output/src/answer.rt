//! The answer of a run for a key or a list.

use ssh_wire::Bytes;

/// The answer of a run for a key or a list.
#[derive(Drop)]
pub struct Answer {
    /// Complete lines of the output, each with its line feed.
    pub text: Bytes,
    /// Whether they report that a key is revoked.
    pub revoked: bool,
}
