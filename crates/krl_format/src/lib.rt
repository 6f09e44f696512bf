//! The format of key revocation lists (PROTOCOL.krl): the places in a list, what is expected at
//! each, and the laws of spellings and of first faults.
#![tactic(auto)]

mod header;
mod judging;
pub mod laws;
mod place;
mod section;

pub use header::{Header, LIMIT, MAGIC, MAGIC_NUMBER, Stated};
pub use judging::{next_bits, next_serial};
pub use place::{Field, FieldPart, Place, Table};
pub use section::{
    BITMAP, CERTIFICATES, EXTENSION, IDS, KEYS, RANGE, SERIALS, SHA1S, SHA256S, SIGNATURE,
    SUBSECTION_EXTENSION, Section, Subsection,
};
