//! The tests of `ssh_cert` and `cert_listing`, through their public items.
#![tactic(auto)]

#[cfg(test)]
mod tests;
