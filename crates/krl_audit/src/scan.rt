//! Keys anywhere in the lines of a text.

ghost use Rattle.std.specs.Prelude.{◌≡◌, ◌∷◌, []};
ghost use Rattle.key_places.specs.Reading.{content_of};
ghost use Rattle.audit_lines.specs.Outcome.{GivesOutcome};
ghost use Rattle.krl_audit.specs.Audit.{Tells};
ghost use Rattle.krl_audit.specs.Scan.{blob_outcome, placed_at, placed_in, scanned_lines};
ghost use Rattle.krl_audit.specs.Tally.{none_yet};

use crate::auditor::{Auditor, FileLine};
use crate::tally::Tally;
use audit_lines::{Outcome, Why, checked};
use byte_streams::Sink;
use key_places::{Place, Places};
use key_text::{LineFault, split_line};
use run_faults::{Cause, KeyCause, RunFault};
use ssh_wire::Bytes;

impl<'q, 'w, W: Sink> Auditor<'q, 'w, W> {
    /// Audits each key in the lines of a text, wherever it stands.
    #[tactic(auto, unfolding(crate::specs::Scan::scanned_lines))]
    pub(crate) fn audit_scanned<'a>(
        &mut self,
        name: &'a str,
        text: &[u8],
    ) -> Result<Tally, RunFault<'a>>
        ensures told { Tells self.old name.now none_yet (scanned_lines text.now) result self.new }
        ensures judge { self.new.judge ≡ self.old.judge }
    {
        let mut number: u64 = 0;
        let mut tally = Tally::NONE;
        let mut rest = text;
        loop {
            let (line, after) = split_line(rest);
            number += 1;
            tally = self.scan_line(FileLine { name, number }, tally, line)?;
            let Some(after) = after else {
                return Ok(tally);
            };
            rest = after;
        }
    }

    // Audits each key in a line.
    fn scan_line<'a>(
        &mut self,
        at: FileLine<'a>,
        tally: Tally,
        line: &[u8],
    ) -> Result<Tally, RunFault<'a>>
        ensures told { Tells self.old at.entry.name.now tally (placed_in at.entry.number line.now)
            result self.new }
        ensures judge { self.new.judge ≡ self.old.judge }
    {
        let mut places = Places::new(line);
        let mut tally = tally;
        'places: loop {
            match places.next(self.run.alloc) {
                Ok(Some(place)) => tally = self.say_place(at, tally, place)?,
                Ok(None) => return Ok(tally),
                Err(_) => return Err(RunFault::whole(at.name, Cause::NoMemory)),
            }
        }
    }

    // Prints the finding of a place, if it is to be printed, and counts it.
    fn say_place<'a>(
        &mut self,
        at: FileLine<'a>,
        tally: Tally,
        place: Place<'_>,
    ) -> Result<Tally, RunFault<'a>>
        ensures told { Tells self.old at.entry.name.now tally
            (placed_at at.entry.number (content_of place.entry) ∷ []) result self.new }
        ensures judge { self.new.judge ≡ self.old.judge }
    {
        let outcome = blob_outcome(place.blob);
        self.say(at, place.column, tally, &outcome)
    }
}

// The outcome of the blob of a place, or of one whose base64 is cut.
fn blob_outcome(blob: Option<Bytes>) -> Outcome<'static>
    ensures { GivesOutcome result (blob_outcome blob) }
{
    match blob {
        None => Outcome::Unread(Why::Key(KeyCause::Line(LineFault::Base64))),
        Some(blob) => checked(None, false, &[], blob, &[]),
    }
}
