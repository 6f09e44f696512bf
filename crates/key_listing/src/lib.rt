//! The run that lists the keys or the certificates of a file, as ssh-keygen(1) does.
#![tactic(auto)]

pub mod laws;
mod listing;

pub use listing::{ListMode, list_run};
