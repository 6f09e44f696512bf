//! The printer: it collects lines into batches, and counts what the writer took.

ghost use Rattle.std.specs.Prelude.{◌≡◌, ◌<◌, ◌↔◌, ℕ, IsTrue, List, [], ◌∷◌, MatchResult, Option};
ghost use Rattle.std.specs.Prelude.{false, true, length, OnErr, OnOk};
ghost use Rattle.run_output.specs.Carries.{Carries, Reaches};
ghost use Rattle.run_output.specs.Done.{Ends};
ghost use Rattle.run_output.specs.Printer.{FailsAgain, Sends, and_answer, batch, nothing_printed};
ghost use Rattle.run_output.specs.Run.{Answered, Item, status_of};
ghost use Rattle.run_faults.specs.RunFault.{is_lost, output_run_fault};

use crate::done::{Done, FAILED};
use byte_streams::{Sink, send};
use run_faults::{Cause, RunFault};
use std::alloc::AllocError;
use std::marker::Model;

// How many bytes of lines are written together, except the last ones.
const BATCH: usize = 65_536;

/// A printer with its writer. Complete lines wait in a buffer until they fill a batch. Once the
/// writer has failed, each call reports that fault again.
#[derive(Drop)]
pub struct Printer<'w, W: Sink> {
    // A run takes the printer apart at its end, so that its contract knows the final state of the
    // writer.
    /// The writer.
    pub out: &'w mut W,
    buffer: &'w mut Vec<u8>,
    sent: u64,
    revoked: bool,
}

impl<'w, W: Sink> Model for Printer<'w, W> {
    ghost use Rattle.run_output.specs.Printer.{Printer};

    ghost Value = { Printer };

    ghost view = { λ printer. record {
      waiting = printer.buffer.now.items;
      sent = printer.sent;
      revoked = printer.revoked;
      taken = W.taken printer.out.now;
      failed = W.has_failed printer.out.now;
      writer = printer.out.ghost_name;
    } };
}

impl<'w, W: Sink> Printer<'w, W> {
    /// A printer that has printed nothing. The content of the buffer is discarded.
    pub fn new(buffer: &'w mut Vec<u8>, out: &'w mut W) -> Self
        ensures { result ≡ nothing_printed (W.taken out.old) (W.has_failed out.old)
            out.entry.ghost_name }
    {
        buffer.clear();
        Printer {
            out,
            buffer,
            sent: 0,
            revoked: false,
        }
    }

    /// Prints complete lines about the file or the list with this name, and records whether they
    /// report a revoked key. An output that has failed reports that fault again.
    pub fn say<'a>(
        &mut self,
        name: &'a str,
        lines: &[u8],
        revoked: bool,
    ) -> Result<(), RunFault<'a>>
        ensures carries { Carries (Answered name.now
            (record { text = lines.now; revoked = revoked }) ∷ []) result self.old self.new }
        ensures again { FailsAgain result self.old self.new }
    {
        self.check()?;
        let Ok(()) = self.add(lines, revoked) else {
            return Err(RunFault::whole(name, Cause::NoMemory));
        };
        if self.is_short() {
            return Ok(());
        }
        self.send()
    }

    // Whether the output still works.
    fn check<'a>(&self) -> Result<(), RunFault<'a>>
        ensures { MatchResult result (λ done. self.now.failed ≡ false)
            (λ stop. (self.now.failed ≡ true) × (stop ≡ output_run_fault self.now.sent)) }
    {
        if self.out.failed() {
            return Err(self.lost());
        }
        Ok(())
    }

    // The fault of an output that has failed.
    fn lost<'a>(&self) -> RunFault<'a>
        ensures { result ≡ output_run_fault self.now.sent }
    {
        RunFault::whole("output", Cause::Output { count: self.sent })
    }

    // Whether less than a batch waits.
    fn is_short(&self) -> bool
        ensures { IsTrue result ↔ (length self.now.waiting < batch) }
    {
        self.buffer.len() < BATCH
    }

    // Adds lines to those that wait. An error changes nothing.
    fn add(&mut self, lines: &[u8], revoked: bool) -> Result<(), AllocError>
        ensures ok { OnOk result (self.new
            ≡ and_answer self.old (record { text = lines.now; revoked = revoked })) }
        ensures refused { OnErr result (self.new ≡ self.old) }
    {
        self.buffer.extend_from_slice(lines)?;
        self.revoked |= revoked;
        Ok(())
    }

    // Writes all waiting lines.
    fn send<'a>(&mut self) -> Result<(), RunFault<'a>>
        ensures sends { self.old.failed ≡ false → Sends result self.old self.new }
        ensures writer { self.new.writer ≡ self.old.writer }
        ensures again { FailsAgain result self.old self.new }
    {
        self.check()?;
        if let Err(part) = send(self.out, self.buffer.as_slice()) {
            self.sent = self.sent.saturating_add(part.count as u64);
            return Err(self.lost());
        }
        self.sent = self.sent.saturating_add(self.buffer.len() as u64);
        self.buffer.clear();
        Ok(())
    }

    /// Writes all waiting lines, so that a reader sees them before the run continues. An output
    /// that has failed reports that fault again.
    pub fn flush<'a>(&mut self) -> Result<(), RunFault<'a>>
        ensures carries { Carries [] result self.old self.new }
        ensures again { FailsAgain result self.old self.new }
    {
        self.check()?;
        self.send()
    }

    /// Ends a run: writes the waiting lines, unless the output has failed. The status is 255 if the
    /// run stopped early, otherwise 1 if it reported a revoked key, otherwise 0.
    pub fn finish<'a>(&mut self, stop: Option<RunFault<'a>>) -> Done<'a>
        ensures ends { (before : Option (List ℕ)) (run : List Item)
            → Reaches before run stop.entry self.old
            → Ends run before self.new.taken self.new.failed result.status result.fault }
        ensures writer { self.new.writer ≡ self.old.writer }
    {
        if is_lost(&stop) {
            return Done {
                status: FAILED,
                fault: stop,
            };
        }
        let fault = self.send().err().or(stop);
        Done {
            status: status(fault.is_some(), self.revoked),
            fault,
        }
    }
}

// Whether the output stopped a run.
fn is_lost(stop: &Option<RunFault>) -> bool
    ensures { result ≡ is_lost stop.now }
{
    match stop {
        Some(fault) => matches!(fault.cause, Cause::Output { .. }),
        None => false,
    }
}

// The exit status of a run.
fn status(stopped: bool, revoked: bool) -> u8
    ensures { result ≡ status_of stopped revoked }
{
    match (stopped, revoked) {
        (true, _) => FAILED,
        (false, true) => 1,
        (false, false) => 0,
    }
}
