//! Making a revocation list from texts, as one run.
#![tactic(auto)]

mod adding;
mod ahead;
mod base;
mod content;
mod counting;
mod indexed;
mod inputs;
pub mod laws;
mod listed;
mod make_fault;
mod names;
mod naming;
mod refusal;
mod run;
mod saying;
mod text;

pub use indexed::index_in;
pub use inputs::{Inputs, Over};
pub use listed::{Facts, Listed, Merged, read_texts};
pub use make_fault::{MakeCause, MakeFault};
pub use names::names_in;
pub use refusal::fault_line;
pub use run::{list_over, text_run};
pub use saying::made_line;
pub use text::Text;
