//! Lines of texts.

/// A line of a text: its place, and its bytes as they are.
#[derive(Clone, Copy)]
pub struct TextLine<'t> {
    /// The name of the text.
    pub file: &'t str,
    /// The line's number in the text, counted from 1.
    pub number: u64,
    /// The bytes of the line, with its comment and without its line feed.
    pub text: &'t [u8],
}
