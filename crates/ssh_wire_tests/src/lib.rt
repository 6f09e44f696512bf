//! The tests of `ssh_wire`, through its public items.
#![tactic(auto)]

#[cfg(test)]
mod tests;
