//! An interval of serials.

/// The serials from `lo` to `hi`, both included.
#[derive(Clone, Copy, PartialEq, Eq)]
pub struct Span {
    /// The first serial.
    pub lo: u64,
    /// The last serial.
    pub hi: u64,
}
