//! Public keys, and the blobs that spell them (RFC 4253 section 6.6).
#![tactic(auto)]

mod blob;
mod fault;
mod fields;
mod key;
mod kind;
pub mod laws;

pub use blob::plain_blob;
pub use fault::KeyFault;
pub use key::{PublicKey, read_fields, read_key};
pub use kind::Kind;
