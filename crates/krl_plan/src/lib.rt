//! Which lists, ranges and bitmaps name serial numbers in the fewest bytes, and their bytes
//! (PROTOCOL.krl).
#![tactic(auto)]

mod bitmap;
mod bitmaps;
mod cell;
mod choice;
mod copies;
mod group;
mod group_text;
pub mod laws;
mod lists;
mod monotonic_queue;
mod plan_text;
mod planner;
mod string;
mod table;

pub use group::{Group, Sort};
pub use plan_text::put_least_plan;
pub use planner::least_plan;
pub use string::{begin_string, end_string};
