//! What the lines of sshd's log report, as queries of a revocation list, and how they are printed.
#![tactic(auto)]

pub mod laws;
mod object;
mod outcome;
mod subject;
mod text;
mod why;

pub use object::{say_login, say_unread_login};
pub use outcome::{Outcome, read_outcome};
pub use subject::subject_of;
pub use text::LoginVerdict;
pub use why::{LoginWhy, Packed};
