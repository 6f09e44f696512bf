//! The tests of `text_entries` and `text_run`, through their public items.
#![tactic(auto)]

mod shelf;
#[cfg(test)]
mod tests;
