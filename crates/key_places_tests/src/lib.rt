//! The tests of `key_places`, through its public items.
#![tactic(auto)]

#[cfg(test)]
mod tests;
