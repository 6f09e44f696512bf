//! The check of a list before it is put in force, as one run.
#![tactic(auto)]

mod checking;
mod conditions;
mod files;
mod host;
pub mod laws;
mod limits;
mod lists;
mod run;
mod version;

pub use host::Host;
pub use limits::{Loaded, Unanswered, Used};
pub use run::check_run;
