//! The state that the parts of a run share.

ghost use Rattle.std.specs.Prelude.{◌≡◌, ◌∷◌, [], ℕ, List, OnOk};
ghost use Rattle.run_output.specs.Carries.{Carries};
ghost use Rattle.run_output.specs.Run.{said_of};

use crate::printer::Printer;
use byte_streams::Sink;
use run_faults::{Cause, RunFault};
use std::alloc::{AllocError, Global};

/// The state that the parts of a run share: the allocator, the printer, and a line that is being
/// made.
#[derive(Drop)]
pub struct Run<'w, W: Sink> {
    pub alloc: Global,
    pub printer: Printer<'w, W>,
    pub line: Vec<u8>,
}

impl<'w, W: Sink> Run<'w, W> {
    /// Prints the line that was made, unless an allocation for it failed.
    pub fn say_line<'a>(
        &mut self,
        name: &'a str,
        made: Result<(), AllocError>,
    ) -> Result<(), RunFault<'a>>
        ensures { (text : List ℕ) → OnOk made (self.old.line.items ≡ text)
            → Carries (said_of name.now text ∷ []) result self.old.printer self.new.printer }
    {
        let Ok(()) = made else {
            return Err(RunFault::whole(name, Cause::NoMemory));
        };
        self.printer.say(name, self.line.as_slice(), false)
    }
}
