//! The text that is printed for words that cannot be parsed.

use crate::options::program;
use clap::error::ErrorKind;
use option_table::shown_words;
use std::alloc::{AllocError, Global};
use std::convert::AsStr;

// The text for words that can be parsed after they are escaped.
const REFUSED: &str = "krl: words that are read once they are escaped\n";

/// The library's text for these words, its help or the version. It repeats words as they are given,
/// so it receives them with their control characters escaped: no word can control the terminal or
/// begin a line.
pub fn text_for<S: AsStr>(alloc: Global, version: &str, words: &[S]) -> Result<String, AllocError> {
    let shown = shown_words(alloc, words)?;
    match program(alloc, version)?.try_get_matches_from(shown.as_slice()) {
        Ok(_matches) => String::from_str(alloc, REFUSED),
        Err(error) if error.kind() == ErrorKind::OutOfMemory => Err(AllocError),
        Err(error) => error.to_string(alloc),
    }
}
