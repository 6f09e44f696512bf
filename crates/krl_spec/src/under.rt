//! The authority of serials and key IDs.

/// The authority of serials and key IDs that name none themselves.
#[derive(Clone, Copy, Debug)]
pub enum Under<'a> {
    /// None: a serial or a key ID is an error.
    NotGiven,
    /// All authorities.
    All,
    /// The authority with this key, given by its blob. An empty blob means all authorities.
    Of(&'a [u8]),
}
