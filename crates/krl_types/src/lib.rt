//! The subject of a query of a revocation list, the entries of lists and what they name, and why a
//! list cannot be read (ssh-keygen(1), KEY REVOCATION LISTS; PROTOCOL.krl).
#![tactic(auto)]

mod item_kind;
mod krl_fault;
mod subject;

pub use item_kind::ItemKind;
pub use krl_fault::KrlFault;
pub use subject::{CertNames, Subject};
