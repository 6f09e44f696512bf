//! Printed text as values: each piece of a line knows its bytes, and pieces join to a line.
#![tactic(auto)]

mod amount;
mod digits;
mod escaped;
mod joined;
mod printed;
mod visible;
mod words;

pub use amount::Amount;
pub use digits::push_number;
pub use escaped::Escaped;
pub use joined::Then;
pub use printed::{Printed, put};
pub use visible::{Visible, visible_name};
pub use words::Words;
