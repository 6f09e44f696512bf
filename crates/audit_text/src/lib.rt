//! How the findings about lines of files of keys are printed: as text, in colour, or as JSON
//! objects.
#![tactic(auto)]

mod colour;
mod explained;
mod format;
pub mod laws;
mod line_kind;
mod more;
mod objects;
mod place;
mod print;
mod reason_values;
mod reasons;
mod said;
mod same;
mod text;

pub use colour::{Mark, unread_mark, verdict_mark};
pub use explained::{ExplainedOf, push_explained};
pub use format::Format;
pub use line_kind::LineKind;
pub use more::{More, write_more};
pub use objects::{CertOf, Fingerprint, status_word};
pub use place::{LabelOf, Location};
pub use print::{KeyPrint, Spelling};
pub use reason_values::ReasonsOf;
pub use reasons::ReasonWords;
pub use said::{say_key, say_unread};
pub use same::write_same;
pub use text::Verdict;
