//! The tests of `krl_spec`, `run_faults`, `krl_runs` and `krl_make`, through their public items.
#![tactic(auto)]

#[cfg(test)]
mod tests;
