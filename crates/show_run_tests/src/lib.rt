//! The tests of `show_run`, `list_diff` and `list_text`, through their public items.
#![tactic(auto)]

#[cfg(test)]
mod tests;
