//! The entries of key revocation lists, held in memory, and queries about them.
#![tactic(auto)]

mod addition;
mod asking;
mod authority_entries;
mod entries_by_authority;
mod facts;
mod gathered;
mod getters;
mod ids;
pub mod laws;
mod listed;
mod name;
mod reasons;
mod revocations;
mod serials;
mod store;
mod texts;

pub use addition::Addition;
pub use facts::{Fact, Facts};
pub use gathered::Gathered;
pub use listed::{Authorities, Listed};
pub use name::Name;
pub use reasons::{Reason, Reasons};
pub use revocations::Revocations;
pub use store::Store;
pub use texts::Texts;
