//! Certificates (PROTOCOL.certkeys), and the subject of a query of a revocation list.
#![tactic(auto)]

mod any_key;
mod cert;
mod escape;
mod fault;
pub mod laws;
mod options;
mod reading;
mod role;
mod strings;
mod subject_fault;
mod subject_of;
mod validity;

pub use any_key::{AnyKey, read_any};
pub use cert::Cert;
pub use escape::{push_escaped, push_numbered};
pub use fault::CertFault;
pub use krl_types::{CertNames, Subject};
pub use options::{CertOption, Options};
pub use reading::read_cert;
pub use role::Role;
pub use strings::Strings;
pub use subject_fault::SubjectFault;
pub use subject_of::subject;
pub use validity::valid_at;
