//! The job that options ask for, if they ask for one (ssh-keygen(1), SYNOPSIS).
#![tactic(auto)]

mod command_line;
mod job;

pub use command_line::CommandLine;
pub use job::{AuthorityOption, Job, Mode, job_of, number_of};
