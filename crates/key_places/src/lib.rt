//! The SSH public keys and certificates in a line of any text, such as YAML, JSON or LDIF.
#![tactic(auto)]

mod blob;
pub mod laws;
mod name;
mod place;
mod places;
mod search;
mod word;

pub use place::Place;
pub use places::Places;
