//! The words of the command line: the job that they ask for, or why they cannot be parsed
//! (ssh-keygen(1), SYNOPSIS).
#![tactic(auto)]

mod command;
mod given;
pub mod laws;
mod options;
mod order;
mod shown;
mod usage;

pub use command::command_of;
