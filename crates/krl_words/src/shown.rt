//! The text of the command line library for words that it refuses.

use crate::options::program;
use crate::usage::{command_name, examples_of, usage_of};
use clap::error::ErrorKind;
use option_table::shown_words;
use std::alloc::{AllocError, Global};
use std::convert::AsStr;

// The text for words that can be parsed after they are escaped.
const REFUSED: &str = "ssh-keygen: usage 2 Words\n";

/// The library's text for these words, its help or the version. It repeats words as they are given,
/// so it receives them with their control characters escaped: no word can control the terminal or
/// begin a line.
pub fn text_for<S: AsStr>(alloc: Global, version: &str, words: &[S]) -> Result<String, AllocError> {
    let shown = shown_words(alloc, words)?;
    said_of(alloc, version, shown.as_slice())
}

// The library's text for words without control characters.
fn said_of(alloc: Global, version: &str, words: &[String]) -> Result<String, AllocError> {
    let name = command_name(words);
    let usage = usage_of(alloc, name)?;
    let examples = examples_of(alloc, name)?;
    let program = program(alloc, version)?
        .override_usage(usage.as_str())
        .after_help(examples.as_str());
    match program.try_get_matches_from(words) {
        Ok(_matches) => String::from_str(alloc, REFUSED),
        Err(error) if error.kind() == ErrorKind::OutOfMemory => Err(AllocError),
        Err(error) => error.to_string(alloc),
    }
}
