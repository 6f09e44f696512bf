//! Making key revocation lists, and updating them (ssh-keygen(1), options -k and -u).
#![tactic(auto)]

mod authority;
mod base;
mod files;
pub mod laws;
mod over;
mod run;

pub use authority::AuthorityOption;
pub use run::{Wanted, make_run};
