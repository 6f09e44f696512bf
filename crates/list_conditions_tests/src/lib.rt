//! The tests of `list_conditions` and `any_list`, through their public items.
#![tactic(auto)]

#[cfg(test)]
mod tests;
