//! Auditing one file after the other.

ghost use Rattle.std.specs.Prelude.{◌≡◌, ◌∷◌, ◌+◌, ◌<◌, ◌^◌, [], ℕ, false, IfSome, List, Option};
ghost use Rattle.std.specs.Prelude.{length};
ghost use Rattle.std.specs.List.{slice_split};
ghost use Rattle.key_text.specs.Armour.{begins_container};
ghost use Rattle.key_text.specs.Lines.{is_newline, lines_left};
ghost use Rattle.run_output.specs.Carries.{Carries, Reaches};
ghost use Rattle.run_output.specs.Run.{Item, said_of};
ghost use Rattle.json_lines.specs.Field.{json_line};
ghost use Rattle.krl_types.specs.Subject.{Subject as SubjectOf};
ghost use Rattle.audit_text.specs.Answer.{Answer as AnswerOf};
ghost use Rattle.audit_text.specs.Place.{label_now};
ghost use Rattle.krl_audit.specs.Audit.{EndsAudit, JudgesAs, Tells, ToldFile, SaysLine, content_of};
ghost use Rattle.krl_audit.specs.Audit.{file_lines, more_item, name_by, text_lines};
ghost use Rattle.krl_audit.specs.Audit.{rest_items, said_if, whole};
ghost use Rattle.krl_audit.specs.Done.{done_object};
ghost use Rattle.audit_lines.specs.declared.front.Fronts.{Fronts as FrontsOf};
ghost use Rattle.audit_lines.specs.Outcome.{GivesOutcome, GivesOutcomes, Outcome as OutcomeOf};
ghost use Rattle.audit_lines.specs.Outcome.{Outcomes as OutcomesOf, LeadsBehind, opened_at};
ghost use Rattle.audit_lines.specs.Outcome.{outcomes_of, private_lines};
ghost use Rattle.audit_lines.specs.Outcome.{in_column, place, place_all, placed_behind};
ghost use Rattle.audit_lines.specs.Outcome.{placed_from};
ghost use Rattle.audit_lines.specs.Outcome.{private_outcome, read_all};
ghost use Rattle.krl_audit.specs.Tally.{none_yet, within};

use crate::counts::Counts;
use crate::done::{FileCounts, ListFacts, write_done};
use crate::judge::{Judge, Shown, says};
use crate::tally::{MOST, Tally};
use audit_lines::{
    Fronts, Outcome, Outcomes, Refusal, Why, checked, is_read_by_lines, keyless, open_private,
    read_outcomes,
};
use audit_text::{LineKind, Location, More, write_more};
use byte_streams::Sink;
use key_text::{Private, before_ending, is_container, split_line};
use run_faults::{Cause, RunFault};
use run_output::{Done, Printer, Run};
use std::alloc::Global;

// The line that ends a private key.
const END_LINE: &[u8] = b"-----END OPENSSH PRIVATE KEY-----";

/// The name of a file, and the name by which it is decided how its lines are read, which is mostly
/// the same. What is before the key of a line, and whether each line is read of a file that begins
/// with a private key, is decided by a name.
#[derive(Clone, Copy)]
pub struct FileName<'a> {
    /// The name that is printed.
    pub shown: &'a str,
    /// The name that decides how the lines are read. If there is none, keys are found anywhere in
    /// them.
    pub read_as: Option<&'a str>,
}

/// A line of a file: the name of the file, and the number of the line, from 1 on; 0 represents the
/// whole file.
#[derive(Clone, Copy)]
pub(crate) struct FileLine<'a> {
    pub(crate) name: &'a str,
    pub(crate) number: u64,
}

/// Audits files: has the list for the queries, the printer and the counts.
#[derive(Drop)]
pub struct Auditor<'q, 'w, W: Sink> {
    /// The list, and which findings are printed.
    pub judge: Judge<'q>,
    /// The state of the run: the allocator, the printer, and the line that is being made.
    pub run: Run<'w, W>,
    /// The counts so far.
    pub counts: Counts,
}

impl<'q, 'w, W: Sink> Auditor<'q, 'w, W> {
    /// An auditor that printed and counted nothing yet.
    pub fn new(alloc: Global, judge: Judge<'q>, printer: Printer<'w, W>) -> Self
        ensures judge { result.judge ≡ judge.entry }
        ensures printer { result.run.printer ≡ printer.entry }
        ensures counts { result.counts ≡ record { keys = 0; revoked = 0; unread = 0 } }
    {
        let run = Run {
            alloc,
            printer,
            line: Vec::new(alloc),
        };
        Auditor {
            judge,
            run,
            counts: Counts::NONE,
        }
    }

    /// Audits a file, given its bytes or why there are none: prints the findings of each of its
    /// lines after the earlier findings, and counts the lines. Each finding depends only on the
    /// list's entries and the canaries, on the names and on the bytes. The first 20 lines with a
    /// revoked key are printed one by one, and then how many more there are; so are the lines that
    /// are not read, and those with a key that is not revoked.
    pub fn audit_file<'a>(
        &mut self,
        name: FileName<'a>,
        content: Result<&[u8], Refusal>,
    ) -> Result<(), RunFault<'a>>
        ensures told { (answers : SubjectOf → AnswerOf) → JudgesAs self.old.judge answers
            → ToldFile answers self.old.judge.shown (name_by name.entry)
            (content_of content.entry) result self.old.run.printer self.new.run.printer
            self.old.counts self.new.counts }
        ensures judge { self.new.judge ≡ self.old.judge }
    {
        let tally = self.audit_lines(name, content)?;
        self.say_rest(name.shown, tally)
    }

    // Audits a file but for its last finding. Returns the numbers of its lines.
    fn audit_lines<'a>(
        &mut self,
        name: FileName<'a>,
        content: Result<&[u8], Refusal>,
    ) -> Result<Tally, RunFault<'a>>
        ensures told { Tells self.old name.entry.shown.now none_yet
            (file_lines (name_by name.entry).read_as (content_of content.entry)) result self.new }
        ensures judge { self.new.judge ≡ self.old.judge }
    {
        let FileName { shown, read_as } = name;
        match (content, read_as) {
            (Err(refusal), _) => self.say_whole(shown, Why::File(refusal)),
            (Ok(text), None) => self.audit_scanned(shown, text),
            (Ok(text), Some(read_as)) => self.audit_text(shown, read_as, text),
        }
    }

    // Audits a file that is read as one of a name.
    fn audit_text<'a>(
        &mut self,
        shown: &'a str,
        read_as: &str,
        text: &[u8],
    ) -> Result<Tally, RunFault<'a>>
        ensures told { Tells self.old shown.now none_yet
            (text_lines (begins_container text.now) read_as.now text.now) result self.new }
        ensures judge { self.new.judge ≡ self.old.judge }
    {
        if is_container(text) {
            self.audit_private(shown, read_as, text)
        } else {
            self.audit_plain(shown, read_as, text)
        }
    }

    // Audits a file that begins with no private key.
    fn audit_plain<'a>(
        &mut self,
        shown: &'a str,
        read_as: &str,
        text: &[u8],
    ) -> Result<Tally, RunFault<'a>>
        ensures told { Tells self.old shown.now none_yet (text_lines false read_as.now text.now)
            result self.new }
        ensures judge { self.new.judge ≡ self.old.judge }
    {
        let fronts = Fronts::of(read_as.as_bytes());
        let (line, after) = split_line(text);
        let Ok(first) = read_outcomes(self.run.alloc, fronts, line) else {
            return Err(RunFault::whole(shown, Cause::NoMemory));
        };
        match keyless(self.run.alloc, fronts, &first, text) {
            Ok(Some(count)) => self.say_whole(shown, Why::NoKeys(count)),
            Ok(None) => self.audit_from(shown, fronts, &first, after),
            Err(_) => Err(RunFault::whole(shown, Cause::NoMemory)),
        }
    }

    // Prints the findings of the first line, and audits the lines after it.
    fn audit_from<'a>(
        &mut self,
        name: &'a str,
        fronts: Fronts,
        first: &Outcomes<'_>,
        after: Option<&[u8]>,
    ) -> Result<Tally, RunFault<'a>>
        requires { IfSome after (λ rest. length rest.now + 2 < 2 ^ 64) }
        ensures told { (given : OutcomesOf) → GivesOutcomes first.now given
            → Tells self.old name.now none_yet
            (placed_from 1 (given ∷ read_all fronts (lines_left after.entry))) result self.new }
        ensures judge { self.new.judge ≡ self.old.judge }
    {
        let tally = self.say_all(FileLine { name, number: 1 }, Tally::NONE, first)?;
        match after {
            None => Ok(tally),
            Some(rest) => self.audit_rest(FileLine { name, number: 1 }, fronts, tally, rest),
        }
    }

    // Audits each line of a text, by the line before it.
    fn audit_rest<'a>(
        &mut self,
        before: FileLine<'a>,
        fronts: Fronts,
        tally: Tally,
        text: &[u8],
    ) -> Result<Tally, RunFault<'a>>
        requires { before.number + length text.now + 1 < 2 ^ 64 }
        ensures told { Tells self.old before.entry.name.now tally
            (placed_from (before.entry.number + 1)
            (read_all fronts (slice_split is_newline text.now))) result self.new }
        ensures judge { self.new.judge ≡ self.old.judge }
    {
        let FileLine { name, mut number } = before;
        let mut tally = tally;
        let mut rest = text;
        loop {
            let (line, after) = split_line(rest);
            number += 1;
            tally = self.say_line(FileLine { name, number }, fronts, tally, line)?;
            let Some(after) = after else {
                return Ok(tally);
            };
            rest = after;
        }
    }

    // Prints the findings of a line, if they are to be printed, and counts it.
    fn say_line<'a>(
        &mut self,
        at: FileLine<'a>,
        fronts: Fronts,
        tally: Tally,
        line: &[u8],
    ) -> Result<Tally, RunFault<'a>>
        ensures told { Tells self.old at.entry.name.now tally
            (place_all at.entry.number (outcomes_of fronts line.now)) result self.new }
        ensures judge { self.new.judge ≡ self.old.judge }
    {
        match read_outcomes(self.run.alloc, fronts, line) {
            Ok(read) => self.say_all(at, tally, &read),
            Err(_) => Err(RunFault::whole(at.name, Cause::NoMemory)),
        }
    }

    // Prints the findings of the outcomes of a line, if they are to be printed, and counts it.
    fn say_all<'a>(
        &mut self,
        at: FileLine<'a>,
        tally: Tally,
        read: &Outcomes<'_>,
    ) -> Result<Tally, RunFault<'a>>
        ensures told { (given : OutcomesOf) → GivesOutcomes read.now given
            → Tells self.old at.entry.name.now tally (place_all at.entry.number given) result
            self.new }
        ensures judge { self.new.judge ≡ self.old.judge }
    {
        let tally = self.say(at, 0, tally, &read.first)?;
        match &read.second {
            None => Ok(tally),
            Some(second) => self.say(at, 0, tally, second),
        }
    }

    /// Prints the finding of an outcome, if it is to be printed, and counts it. Its key begins in
    /// this column; 0 represents the whole line. Before it the file had lines of these numbers.
    pub(crate) fn say<'a>(
        &mut self,
        at: FileLine<'a>,
        column: u64,
        tally: Tally,
        outcome: &Outcome<'_>,
    ) -> Result<Tally, RunFault<'a>>
        ensures told { (given : OutcomeOf) → GivesOutcome outcome.now given
            → Tells self.old at.entry.name.now tally
            (in_column at.entry.number column given ∷ []) result self.new }
        ensures judge { self.new.judge ≡ self.old.judge }
    {
        let shown = tally.within(self.judge.shown);
        let kind = self.say_judged(at, column, shown, outcome)?;
        self.counts = self.counts.with(kind);
        Ok(tally.with(kind))
    }

    // Prints the finding of an outcome, if it is to be printed, and returns its kind.
    fn say_judged<'a>(
        &mut self,
        at: FileLine<'a>,
        column: u64,
        shown: Shown<'q>,
        outcome: &Outcome<'_>,
    ) -> Result<LineKind, RunFault<'a>>
        ensures said { (given : OutcomeOf) → GivesOutcome outcome.now given
            → (answers : SubjectOf → AnswerOf) → JudgesAs self.old.judge answers
            → SaysLine answers shown.entry at.entry.name.now (in_column at.entry.number column given)
            result self.old.run.printer self.new.run.printer }
        ensures judge { self.new.judge ≡ self.old.judge }
        ensures counts { self.new.counts ≡ self.old.counts }
    {
        let alloc = self.run.alloc;
        let FileLine { name, number } = at;
        let location = Location {
            label: shown.label,
            name,
            number,
            column,
        };
        let judge = Judge {
            list: self.judge.list,
            canaries: self.judge.canaries,
            texts: self.judge.texts,
            shown,
        };
        let made = match judge.judge(alloc, location, outcome, &mut self.run.line) {
            Ok(made) => made,
            Err(_) => return Err(RunFault::whole(name, Cause::NoMemory)),
        };
        say_made(&mut self.run, name, made.said)?;
        Ok(made.kind)
    }

    // Audits a private key file, and the lines that are read beside its key.
    fn audit_private<'a>(
        &mut self,
        name: &'a str,
        read_as: &str,
        text: &[u8],
    ) -> Result<Tally, RunFault<'a>>
        ensures told { Tells self.old name.now none_yet (private_lines read_as.now text.now) result
            self.new }
        ensures judge { self.new.judge ≡ self.old.judge }
    {
        let tally = self.say_private(name, text)?;
        let fronts = Fronts::of(read_as.as_bytes());
        if is_read_by_lines(read_as.as_bytes()) {
            return self.audit_rest(FileLine { name, number: 0 }, fronts, tally, text);
        }
        match behind_private(text) {
            None => Ok(tally),
            Some((number, rest)) => self.audit_rest(FileLine { name, number }, fronts, tally, rest),
        }
    }

    // Audits the key of a private key file.
    fn say_private<'a>(&mut self, name: &'a str, text: &[u8]) -> Result<Tally, RunFault<'a>>
        ensures told { Tells self.old name.now none_yet
            (place 1 (private_outcome (opened_at text.now)) ∷ []) result self.new }
        ensures judge { self.new.judge ≡ self.old.judge }
    {
        let first = FileLine { name, number: 1 };
        match open_private(self.run.alloc, text) {
            Ok(Ok(Private { blob, comment })) => {
                let outcome = checked(None, false, &[], blob, comment.as_slice());
                self.say(first, 0, Tally::NONE, &outcome)
            }
            Ok(Err(fault)) => {
                self.say(first, 0, Tally::NONE, &Outcome::Unread(Why::Private(fault)))
            }
            Err(_) => Err(RunFault::whole(name, Cause::NoMemory)),
        }
    }

    // Prints that a file is not read, if it is to be printed, and counts it.
    fn say_whole<'a>(&mut self, name: &'a str, why: Why) -> Result<Tally, RunFault<'a>>
        ensures told { Tells self.old name.now none_yet (whole why) result self.new }
        ensures judge { self.new.judge ≡ self.old.judge }
    {
        let file = FileLine { name, number: 0 };
        self.say(file, 0, Tally::NONE, &Outcome::Unread(why))
    }

    // Prints of each kind how many lines a file has beyond those that were printed one by one, if
    // there are any.
    fn say_rest<'a>(&mut self, name: &'a str, tally: Tally) -> Result<(), RunFault<'a>>
        ensures said { Carries (rest_items self.old.judge.shown name.now tally) result
            self.old.run.printer self.new.run.printer }
        ensures judge { self.new.judge ≡ self.old.judge }
        ensures counts { self.new.counts ≡ self.old.counts }
    {
        self.say_more(name, LineKind::Revoked, tally.revoked)?;
        self.say_more(name, LineKind::Unread, tally.unread)?;
        self.say_more(name, LineKind::Fine, tally.fine)
    }

    // Prints how many lines of this kind a file has beyond those that were printed one by one.
    fn say_more<'a>(
        &mut self,
        name: &'a str,
        kind: LineKind,
        lines: u64,
    ) -> Result<(), RunFault<'a>>
        ensures said { Carries (more_item self.old.judge.shown name.now kind lines ∷ []) result
            self.old.run.printer self.new.run.printer }
        ensures judge { self.new.judge ≡ self.old.judge }
        ensures counts { self.new.counts ≡ self.old.counts }
    {
        let shown = self.judge.shown;
        let said = says(shown, kind) && MOST < lines;
        let more = More {
            kind,
            lines: lines.saturating_sub(MOST),
        };
        let location = Location::file(shown.label, name);
        if said && write_more(shown.format, location, more, &mut self.run.line).is_err() {
            return Err(RunFault::whole(name, Cause::NoMemory));
        }
        say_made(&mut self.run, name, said)
    }

    /// Prints the last object of an audit that was not stopped: the counts of files and of lines,
    /// and the list.
    pub fn say_done<'a>(
        &mut self,
        files: FileCounts,
        list: &ListFacts<'a>,
    ) -> Result<(), RunFault<'a>>
        ensures said { Carries (said_of list.now.name.now
            (json_line (done_object (label_now self.old.judge.shown.label) files self.old.counts
            list.now)) ∷ []) result self.old.run.printer self.new.run.printer }
        ensures judge { self.new.judge ≡ self.old.judge }
        ensures counts { self.new.counts ≡ self.old.counts }
    {
        let label = self.judge.shown.label;
        let made = write_done(label, files, self.counts, list, &mut self.run.line);
        self.run.say_line(list.name, made)
    }

    /// Ends an audit, whether a fault stopped it or not: sends the waiting output.
    pub fn finish<'a>(&mut self, stop: Option<RunFault<'a>>) -> Done<'a>
        ensures ends { (before : Option (List ℕ)) (run : List Item)
            → Reaches before run stop.entry self.old.run.printer
            → EndsAudit run self.old.counts before self.new.run.printer.taken
            self.new.run.printer.failed result.status result.fault }
        ensures writer { self.new.run.printer.writer ≡ self.old.run.printer.writer }
    {
        let done = self.run.printer.finish(stop);
        let fault = done.fault;
        Done {
            status: self.counts.status(fault.is_some()),
            fault,
        }
    }
}

/// Prints the line that was made, if it is to be printed.
pub fn say_made<'a, W: Sink>(
    run: &mut Run<W>,
    name: &'a str,
    said: bool,
) -> Result<(), RunFault<'a>>
    ensures { Carries (said_if said name.now run.old.line.items ∷ []) result run.old.printer
        run.new.printer }
{
    if said {
        run.say_line(name, Ok(()))
    } else {
        Ok(())
    }
}

// The number of lines to the one that ends a private key, and the text behind it, if there is one.
fn behind_private(text: &[u8]) -> Option<(u64, &[u8])>
    ensures leads { (kind : FrontsOf) → LeadsBehind kind result
        (placed_behind kind 1 (slice_split is_newline text.now)) }
    ensures within { IfSome result (λ behind. behind.0 + length behind.1.now + 1 < 2 ^ 64) }
{
    let mut rest = text;
    let mut passed: u64 = 0;
    loop {
        let (line, after) = split_line(rest);
        let rest_of_text = after?;
        passed += 1;
        if before_ending(line) == END_LINE {
            return Some((passed, rest_of_text));
        }
        rest = rest_of_text;
    }
}
