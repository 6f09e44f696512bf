//! Sets of serials as runs and blocks of bits in pages.
#![tactic(auto)]

mod additions;
mod block_bits;
mod chunk;
mod few;
pub mod laws;
mod page;
mod pages;
mod replacement;
mod row;
mod runs;
mod search;
mod sides;
mod span_pages;
mod storage;

pub use span_pages::SpanPages;

/// The representation of a set of serials that is in use.
pub type Held = SpanPages;
