//! Logs of sshd, and whether the keys and certificates of their logins are revoked.
#![tactic(auto)]

mod batch;
mod feed;
mod finding;
mod judging;
mod log;
mod order;
mod packed;
mod run;
mod summary;
mod visit;

pub use judging::NotRead;
pub use order::LoginOrder;
pub use run::{LogSources, LoginsEnd, logins_run};
pub use summary::{LoginSummary, push_login_summary, push_sha1s};
