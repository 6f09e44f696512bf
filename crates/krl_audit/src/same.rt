//! Names that lead to a file that was audited before.

ghost use Rattle.std.specs.Prelude.{◌≡◌, ◌∷◌, []};
ghost use Rattle.run_output.specs.Carries.{Carries};
ghost use Rattle.krl_audit.specs.Audit.{said_if};
ghost use Rattle.audit_text.specs.Place.{file_place, label_now};
ghost use Rattle.audit_text.specs.Same.{same_said};

use crate::auditor::{Auditor, say_made};
use audit_text::{Location, write_same};
use byte_streams::Sink;
use run_faults::{Cause, RunFault};

impl<'q, 'w, W: Sink> Auditor<'q, 'w, W> {
    /// Prints, if revoked keys are printed, that a name leads to a file that was audited before. It
    /// is no finding: nothing is counted, and the status stays unchanged.
    pub fn say_same<'a>(&mut self, name: &'a str) -> Result<(), RunFault<'a>>
        ensures said { Carries (said_if self.old.judge.shown.revoked name.now
            (same_said self.old.judge.shown.format
            (file_place (label_now self.old.judge.shown.label) name.now)) ∷ []) result
            self.old.run.printer self.new.run.printer }
        ensures judge { self.new.judge ≡ self.old.judge }
        ensures counts { self.new.counts ≡ self.old.counts }
    {
        let shown = self.judge.shown;
        let location = Location::file(shown.label, name);
        if write_same(shown.format, location, &mut self.run.line).is_err() {
            return Err(RunFault::whole(name, Cause::NoMemory));
        }
        say_made(&mut self.run, name, shown.revoked)
    }
}
