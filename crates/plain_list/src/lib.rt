//! Plain lists of public keys, which sshd(8) also takes as `RevokedKeys`: what their lines revoke.
#![tactic(auto)]

mod any;
mod dsa;
mod fault;
mod key;
pub mod laws;
mod line;
mod reading;

pub use any::begins_list;
pub use dsa::{DsaLine, DsaPart, first_dsa_line};
pub use fault::PlainFault;
pub use keyed_lines::KeyCause;
pub use reading::read_plain;
