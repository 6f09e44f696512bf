//! Words as they may be repeated on a terminal.

use std::alloc::{AllocError, Global};
use std::convert::AsStr;

/// The words with their control characters escaped.
pub fn shown_words<S: AsStr>(alloc: Global, words: &[S]) -> Result<Vec<String>, AllocError> {
    let mut shown = Vec::new(alloc);
    for word in words {
        shown.push(shown_word(alloc, word.as_str())?)?;
    }
    Ok(shown)
}

// The word with each byte of a control character as `\x` and two hexadecimal digits, as names are
// printed. Control characters outside ASCII are included.
fn shown_word(alloc: Global, word: &str) -> Result<String, AllocError> {
    let mut shown = String::new(alloc);
    for letter in word.chars() {
        if letter.is_control() {
            push_digits(alloc, &mut shown, letter)?;
        } else {
            shown.push(letter)?;
        }
    }
    Ok(shown)
}

// Appends the bytes of the letter as digits.
fn push_digits(alloc: Global, shown: &mut String, letter: char) -> Result<(), AllocError> {
    let mut bytes = [0u8; 4];
    for byte in letter.encode_utf8(&mut bytes).bytes() {
        let digits = format!(in alloc; "\\x{byte:02x}")?;
        shown.push_str(digits.as_str())?;
    }
    Ok(())
}
