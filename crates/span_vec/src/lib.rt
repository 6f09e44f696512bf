//! A set of serials as one sorted vector, for tests: they compare it with the set in use.
#![tactic(auto)]

mod search;
mod vector;

pub use vector::SpanVec;
