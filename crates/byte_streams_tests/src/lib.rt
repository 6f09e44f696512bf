//! The tests of `byte_streams`, through its public items.
#![tactic(auto)]

#[cfg(test)]
mod tests;
