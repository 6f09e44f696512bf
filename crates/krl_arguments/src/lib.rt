//! The words of `krl`: the task that they ask for, or why they cannot be parsed (krl(1), SYNOPSIS).
#![tactic(auto)]

mod command;
mod duration;
mod inputs;
mod making;
mod misuse;
mod number;
mod options;
mod shown;
mod task;
mod tasks;

pub use command::task_of;
pub use task::{Audit, Check, Diff, Logins, Make, Show, Task};
