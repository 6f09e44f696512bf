//! Where and why reading a specification file stopped.

use run_faults::SpecCause;

/// The first line of a specification file that has a fault, and why.
#[derive(Clone, Copy, Debug, PartialEq, Eq)]
pub struct SpecFault {
    /// The line's number, counted from 1.
    pub line: u64,
    /// Why the line is faulty.
    pub cause: SpecCause,
}
