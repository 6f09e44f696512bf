//! Laws of the texts of lists: what reading them gives.
#![tactic(auto)]

pub mod laws;
