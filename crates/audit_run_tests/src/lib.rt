//! The tests of `audit_run`, through what it makes public.
#![tactic(auto)]

#[cfg(test)]
mod tests;
