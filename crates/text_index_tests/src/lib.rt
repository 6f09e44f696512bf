//! The tests of `text_index`, through its public items.
#![tactic(auto)]

#[cfg(test)]
mod tests;
