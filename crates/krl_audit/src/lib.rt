//! Audits files of keys by a key revocation list: each line has an outcome, and is printed if its
//! key is revoked, with the reasons, or if it cannot be read.
#![tactic(auto)]

mod auditor;
mod counts;
mod done;
mod judge;
pub mod laws;
mod same;
mod scan;
mod tally;

pub use auditor::{Auditor, FileName, say_made};
pub use counts::Counts;
pub use done::{FileCounts, ListFacts};
pub use judge::{Judge, JudgedLine, Shown, says};
