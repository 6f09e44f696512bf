//! Queries about a key revocation list that is streamed.
#![tactic(auto)]

mod findings;
mod key_hashes;
pub mod laws;
mod questions;
mod topics;

pub use questions::Questions;
