//! The edge of a program: its words, the line that says why it stopped, and its exit status.
#![tactic(auto)]

mod ending;
mod program;

pub use ending::{Lines, end, print_line, refuse, stop};
pub use program::{Program, run};
