//! What one list of revocations names and another does not.
#![tactic(auto)]

mod ahead;
mod gap;
mod items;
pub mod laws;
mod serials;
mod window;
mod without;

pub use without::difference;
