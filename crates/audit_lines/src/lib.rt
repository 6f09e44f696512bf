//! What the lines of files of keys are: a key, nothing, or why it is not read.
#![tactic(auto)]

mod fault_text;
mod front;
pub mod laws;
mod outcome;
mod survey;
mod why;

pub use fault_text::refusal_fault;
pub use front::{Fronts, is_read_by_lines, reads_every};
pub use outcome::{Found, Outcome, Outcomes, checked, open_private, read_outcomes};
pub use survey::{keyless, keyless_lines};
pub use why::{Refusal, Told, Why, refusal_words};
