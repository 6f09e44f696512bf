//! Sets of serials, and the serials of a bitmap, as the fewest intervals.
//!
//! A serial is a number from 1 to 2^64-1. `Spans` is a set of them, and `BitRuns` reads a bitmap of
//! a key revocation list (PROTOCOL.krl) a byte at a time.
#![tactic(auto)]

mod bit_fault;
mod bit_runs;
mod byte_runs;
mod finished;
mod iteration;
pub mod laws;
mod near;
mod piece;
mod span;
mod spans;

pub use bit_fault::BitFault;
pub use bit_runs::BitRuns;
pub use finished::Finished;
pub use iteration::next_after;
pub use near::count_near;
pub use piece::Piece;
pub use span::Span;
pub use spans::Spans;
