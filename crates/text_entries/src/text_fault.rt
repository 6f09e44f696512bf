//! Where and why reading the text of a list stopped.

use crate::text_cause::TextCause;

/// The first line of a text that has a fault, and why.
#[derive(Clone, Copy, Debug, PartialEq, Eq)]
pub struct TextFault {
    /// The line's number, counted from 1.
    pub line: u64,
    /// Why the line is faulty.
    pub cause: TextCause,
}
