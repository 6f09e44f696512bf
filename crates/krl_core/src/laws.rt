//! Laws of the definitions. Each function does nothing: its contract is the law.

mod lists;

pub use lists::four_intervals_a_byte;
