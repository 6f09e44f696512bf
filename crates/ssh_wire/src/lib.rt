//! The wire format: numbers, strings and multiple precision integers (RFC 4251 section 5), and why
//! a field could not be read from bytes or from a reader.
#![tactic(auto)]

mod bytes;
mod cursor;
mod fault;
mod field;
pub mod laws;
mod pull_fault;
mod put;

pub use bytes::Bytes;
pub use cursor::Cursor;
pub use fault::WireFault;
pub use field::{array_of, byte_of, u32_of, u64_of};
pub use pull_fault::PullFault;
pub use put::{put_byte, put_mpint, put_string, put_u32, put_u64};
