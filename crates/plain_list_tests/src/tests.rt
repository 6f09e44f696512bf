//! What no contract says: what a real sshd answered about lists, and calls with ample memory.

mod dsa;
mod lists;
mod page;
mod sizes;
