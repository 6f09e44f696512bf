//! Revocation lists by the fingerprints of what they name, for queries that have only fingerprints.
#![tactic(auto)]

mod keys_by;
pub mod laws;
mod printed;

pub use keys_by::{KeysBy, list_by};
pub use printed::fingerprint_list;
