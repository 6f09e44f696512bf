//! The kind of a line, by the list.

/// The kind of a line.
#[derive(Clone, Copy, PartialEq, Eq)]
pub enum LineKind {
    /// Empty, or a comment.
    Empty,
    /// A key that its line marks as revoked.
    Distrusted,
    /// A key that the list does not revoke.
    Fine,
    /// A key that the list revokes.
    Revoked,
    /// Not read.
    Unread,
}
