//! Printed lists, differences of small and of large lists, and the callers of the pages.

mod comparisons;
mod differences;
mod held;
mod large;
mod lines;
mod page;
mod pipes;
mod runs;
