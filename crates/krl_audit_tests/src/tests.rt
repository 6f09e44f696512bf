//! Facts that no contract states: lines as people read them, and calls with ample memory.

mod files;
mod keys;
mod lines;
mod made;
mod objects;
mod page;
mod readings;
mod scanned;
