//! The file of a list: where it is, held against other updates, read, and replaced.
#![tactic(auto)]

mod in_place;
mod leftovers;
mod list_target;
mod locked_list;
mod locking;
mod names;
mod replacing;
mod rights;
mod waiting;

pub use list_target::{ListTarget, OldReader};
