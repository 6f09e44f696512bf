//! The tests of `krl_plan`, through its public items.
#![tactic(auto)]

#[cfg(test)]
mod tests;
