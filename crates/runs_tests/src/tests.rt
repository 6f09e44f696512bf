//! Facts that no contract states: worked runs, printed faults, devices that fail.

mod asking;
mod devices;
mod faults;
mod listing;
mod making;
mod page;
mod runs;
