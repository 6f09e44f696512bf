//! Which key a line has, and why it has none.
#![tactic(auto)]

mod key_cause;
pub mod laws;

pub use key_cause::KeyCause;
