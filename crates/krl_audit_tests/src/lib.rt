//! The tests of `krl_audit`, `audit_lines` and `audit_text`, through their public items.
#![tactic(auto)]

#[cfg(test)]
mod tests;
