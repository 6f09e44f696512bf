//! JSON objects (RFC 8259) on lines of their own: their fields in order, and bytes that may not be
//! text.
#![tactic(auto)]

mod escapes;
mod fields;
pub mod laws;
mod line_writer;
mod nested;
mod value;

pub use fields::{Fields, Named, Then};
pub use line_writer::{LineWriter, write_object};
pub use nested::{Array, Object, Values};
pub use value::{Digits, Text, Value};
