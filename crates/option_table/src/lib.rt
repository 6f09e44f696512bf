//! The options of a program as a table, their values in a command line, and why words are refused.
#![tactic(auto)]

mod argument;
mod fault;
mod shown;
mod value;

pub use argument::{Argument, Syntax, with_arguments};
pub use fault::{CommandFault, fault_of};
pub use shown::shown_words;
pub use value::{is_set, value_of, values_of};
