//! Checks a key revocation list before it is put in force: OpenSSH also reads it, it is not older
//! than another, an sshd uses it, it revokes no key that must be kept, and it revokes each canary.
#![tactic(auto)]

mod checker;
mod condition;
pub mod laws;
mod object;
mod role;
mod text;

pub use checker::{Checker, names_nobody};
pub use condition::{Condition, SshdUse};
pub use role::Role;
