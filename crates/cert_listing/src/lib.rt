//! The listing of a certificate (ssh-keygen(1), option -L), and the text of an instant.
#![tactic(auto)]

pub mod laws;
mod listing;
mod time;

pub use listing::list_cert;
pub use time::time_text;
