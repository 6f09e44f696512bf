//! Texts as they are printed.

use std::alloc::{AllocError, Global};
use std::fmt::Display;

/// The first row whose value does not print as the text beside it.
pub fn misprinted<V: Display>(
    alloc: Global,
    rows: &[(V, &'static str)],
) -> Result<Option<usize>, AllocError> {
    for (at, (value, text)) in rows.iter().enumerate() {
        let printed = format!(in alloc; "{value}")?;
        if printed.as_str() != *text {
            return Ok(Some(at));
        }
    }
    Ok(None)
}
