//! What no contract says: the lines of a check, and calls with ample memory.

mod any_lists;
mod checks;
mod objects;
mod page;
mod runs;
