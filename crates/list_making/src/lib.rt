//! Lists that are made over what is under their names, and put there.
#![tactic(auto)]

mod making;
mod reading;
mod target;
mod version;

pub use making::{Made, Maker, make_at};
pub use reading::{buffered, read_rest};
pub use target::{Put, Target};
pub use version::next_version;
