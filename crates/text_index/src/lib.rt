//! Which lines of the texts of a revocation list name a key or a certificate.
#![tactic(auto)]

mod explaining;
mod fronts;
mod indexing;
pub mod laws;
mod name_index;
mod posting;
mod text_line;

pub use explaining::Explanation;
pub use indexing::TextIndex;
pub use text_line::TextLine;
