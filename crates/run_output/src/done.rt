//! The end of a run.

use run_faults::RunFault;

/// The status of a fault.
pub const FAILED: u8 = 255;

/// The end of a run.
#[derive(Drop)]
pub struct Done<'a> {
    /// The exit status of the program.
    pub status: u8,
    /// Why the run stopped early.
    pub fault: Option<RunFault<'a>>,
}
