//! The list that a file is, whether it is a key revocation list or a plain list.
#![tactic(auto)]

mod given;
mod list;

pub use given::{Given, Lists, read_given};
pub use list::{List, read_list};
