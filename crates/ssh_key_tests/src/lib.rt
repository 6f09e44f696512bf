//! The tests of `ssh_key` and `key_text`, through their public items.
#![tactic(auto)]

#[cfg(test)]
mod tests;
