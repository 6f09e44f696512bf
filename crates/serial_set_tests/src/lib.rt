//! The tests of `serial_set`, `span_sets` and `span_vec`, through their public items.
#![tactic(auto)]

#[cfg(test)]
mod tests;
