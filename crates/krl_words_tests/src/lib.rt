//! The tests of `krl_words` and `krl_arguments`, through their public items.
#![tactic(auto)]

#[cfg(test)]
mod tests;
