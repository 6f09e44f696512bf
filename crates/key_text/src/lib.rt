//! Public keys as text: the lines of key files (sshd(8)), private key files (OpenSSH's
//! PROTOCOL.key), and the fingerprints that ssh-keygen(1) prints.
#![tactic(auto)]

mod container;
mod fingerprint_fault;
mod fingerprints;
mod hash;
mod key_file;
pub mod laws;
mod line;
mod line_fault;
mod lines;
mod marker;
mod parsing;
mod private_fault;
mod type_name;

pub use container::{Private, is_container, read_private, read_public_half};
pub use fingerprint_fault::FingerprintFault;
pub use fingerprints::fingerprint;
pub use hash::{Hash, sha1_of, sha256_of};
pub use key_file::has_key;
pub use line::{
    Line, after_blanks, before_ending, host_part, is_blank, is_ending, key_part, read_line,
    read_part,
};
pub use line_fault::LineFault;
pub use lines::split_line;
pub use marker::{Marker, split_marker};
pub use parsing::parse_fingerprint;
pub use private_fault::PrivateFault;
