//! The format in which findings are printed.

/// The format in which findings are printed.
#[derive(Clone, Copy)]
pub enum Format {
    /// For people.
    Text,
    /// For people at a terminal: the word for whether a key is revoked is in colour.
    Colour,
    /// A JSON object on each line.
    Json,
}
