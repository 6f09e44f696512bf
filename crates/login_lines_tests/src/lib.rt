//! The tests of `login_lines`, through its public items.
#![tactic(auto)]

#[cfg(test)]
mod tests;
