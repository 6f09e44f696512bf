//! The options on a parsed command line.

/// A parsed command line: which of the options without a value are given, the values of the others,
/// the files, and whether a file is named between two uses of `-s`.
#[derive(Drop)]
pub struct CommandLine<'a> {
    /// Whether `-l` is given.
    pub list: bool,
    /// Whether `-L` is given.
    pub certificates: bool,
    /// Whether `-k` is given.
    pub make: bool,
    /// Whether `-Q` is given.
    pub query: bool,
    /// Whether `-u` is given.
    pub update: bool,
    /// The value of `-f`.
    pub file: Option<&'a str>,
    /// The value of `-E`.
    pub hash: Option<&'a str>,
    /// The value of `-s`.
    pub authority: Option<&'a str>,
    /// The value of `-z`.
    pub version: Option<&'a str>,
    /// The files that follow the options.
    pub files: Vec<&'a str>,
    /// Whether a file is named between two uses of `-s`. It is not clear then whose serials and key
    /// IDs the files name.
    pub is_divided: bool,
}
