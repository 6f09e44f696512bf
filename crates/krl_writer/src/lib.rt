//! Writing key revocation lists (PROTOCOL.krl).
#![tactic(auto)]

mod authorities;
pub mod laws;
mod strings;
mod text;
mod text_fault;

pub use text::{WriteFault, krl_text, write_krl};
pub use text_fault::TextFault;
