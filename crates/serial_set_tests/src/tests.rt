//! Facts that no contract states: worked sets and bitmaps, for each representation.
mod adding;
mod bitmaps;
mod near;
mod page;
mod pages;
mod sets;
