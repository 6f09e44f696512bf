//! Examples from the formats, and the host key that GitHub publishes.

mod containers;
mod fault;
mod fingerprints;
mod key;
mod kind;
mod large;
mod lines;
mod made;
mod markers;
mod page;
mod parts;
