//! Specification files: what their lines add to a list (ssh-keygen(1), KEY REVOCATION LISTS).
#![tactic(auto)]

mod adding;
mod blanks;
mod directive;
mod entries;
mod keys;
pub mod laws;
mod lines;
mod number;
mod spec_fault;
mod under;

pub use blanks::{bare_line, position_of};
pub use directive::Directive;
pub use entries::{add_order, add_subject};
pub use keys::{ask, key_line};
pub use lines::read_spec;
pub use run_faults::SpecCause;
pub use spec_fault::SpecFault;
pub use under::Under;
