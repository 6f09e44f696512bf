//! Key revocation lists (PROTOCOL.krl).
#![tactic(auto)]

mod buffered;
mod continuing;
mod field_store;
pub mod laws;
mod read;
mod reading;

pub use krl_entries::{Authorities, Listed, Revocations, Store, Texts};
pub use krl_format::{Header, LIMIT, MAGIC, MAGIC_NUMBER};
pub use krl_types::KrlFault;
pub use read::read_krl;
pub use reading::{Reading, Walk};
