//! The lines of texts, lists that are made of them, and the callers of the pages.

mod current;
mod days;
mod ids;
mod lines;
mod lost;
mod names;
mod page;
mod places;
mod runs;
mod serials;
