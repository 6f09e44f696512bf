//! Each call that allocates, with its result if there is memory, and the state that is left if an
//! allocation fails.

mod answered;
mod audits;
mod buffer;
mod checks;
mod compared;
mod differences;
mod holding;
mod keys;
mod made;
mod parts;
mod puts;
mod reading;
mod runs;
mod sets;
mod shown;
mod spec_files;
mod texts;
mod trees;
mod words;
