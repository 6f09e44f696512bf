//! The tests of `krl_openssh`, `openssh_keys` and `curve_points`, through their public items.
#![tactic(auto)]

#[cfg(test)]
mod tests;
