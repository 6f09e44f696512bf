//! The answers of runs for the keys of files, and how they are printed.
#![tactic(auto)]

mod answer;
mod answers;
mod done;
mod iteration;
pub mod laws;
mod printer;
mod run;

pub use answer::Answer;
pub use answers::Answers;
pub use done::{Done, FAILED};
pub use iteration::{print_file, print_files};
pub use printer::Printer;
pub use run::Run;
