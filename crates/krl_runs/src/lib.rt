//! The run that queries key revocation lists for keys, as ssh-keygen(1) does.
#![tactic(auto)]

mod contents;
pub mod laws;
mod query;
mod questions;
mod streaming;

pub use query::query_run;
