//! Facts that no contract states: worked lists, calls with ample memory, devices that fail.

mod asking;
mod full;
mod holding;
mod hostile;
mod lists;
mod many;
mod page;
mod reading;
mod reasons;
mod rows;
mod said;
mod sending;
mod streaming;
mod writing;
