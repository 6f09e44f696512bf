//! Whether OpenSSH also reads a key revocation list, and reads the same names (PROTOCOL.krl).
#![tactic(auto)]

mod authorities;
mod difference;
mod first;
mod key_ids;
pub mod laws;
mod strings;

pub use authorities::{Incomparable, first_incomparable};
pub use difference::Difference;
pub use first::first_difference;
