//! Facts that no contract states: certificates with known results, and calls with ample memory.

mod asking;
mod cut;
mod fault;
mod listing;
mod options;
mod page;
mod parts;
mod reading;
