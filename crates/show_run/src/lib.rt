//! Revocation lists that are shown as texts, and two of them that are compared by what they name,
//! each as one run.
#![tactic(auto)]

mod change_lines;
mod changes;
mod comparison;
pub mod laws;
mod lists;
mod printing;
mod run;
mod walk;

pub use comparison::{Comparison, diff_run};
pub use run::show_run;
pub use walk::show_held;
