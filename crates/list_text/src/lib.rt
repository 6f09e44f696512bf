//! The text of a revocation list: what it names, a line for each fact, or a JSON object.
#![tactic(auto)]

mod counts;
mod fact;
mod form;
pub mod laws;
mod line;
mod object;
mod side;

pub use counts::Counts;
pub use fact::Fact;
pub use form::Form;
pub use object::write_changes;
pub use side::Side;
