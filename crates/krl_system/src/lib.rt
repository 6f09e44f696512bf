//! A program's calls of the operating system: opening files, and reading the clock.
#![tactic(auto)]

mod clock;
mod files;
mod streams;

pub use clock::{date, moment, present};
pub use files::{open, open_authority, open_files, open_list, open_or_input, read_list};
pub use streams::{NOTHING, Placeholders, open_placeholders};
