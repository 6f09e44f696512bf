//! Facts that no contract states: worked plans, and their cost beside that of every other plan.

mod page;
mod planning;
mod string;
