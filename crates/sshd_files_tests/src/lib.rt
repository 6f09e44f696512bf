//! The tests of `sshd_files`, through its public items.
#![tactic(auto)]

#[cfg(test)]
mod tests;
