//! Which public keys OpenSSH accepts in a list.
#![tactic(auto)]

mod judgement;
mod number;
mod point;

pub use judgement::{Judgement, judge};
