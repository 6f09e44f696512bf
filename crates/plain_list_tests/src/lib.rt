//! The tests of `plain_list`, through what it makes public.
#![tactic(auto)]

#[cfg(test)]
mod tests;
