//! The tests of `krl_core`, through its public items.
#![tactic(auto)]

#[cfg(test)]
mod tests;
