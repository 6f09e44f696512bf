//! Lines of several formats, long lines, and the caller of the page.

mod lines;
mod page;
mod sizes;
