//! The keys of files that a caller passes, and why a run over them stops (ssh-keygen(1)).
#![tactic(auto)]

mod cause;
mod causes;
mod file_fault;
mod file_keys;
mod named;
mod run_fault;
mod spec_cause;

pub use cause::{Cause, cause_of};
pub use causes::{cause_words, line_words};
pub use file_fault::FileFault;
pub use file_keys::{FileKey, FileKeys, keys_of};
pub use keyed_lines::KeyCause;
pub use named::{LIMIT, Named, load};
pub use run_fault::{RunFault, fault_text};
pub use spec_cause::SpecCause;
