//! Checking a list, one condition after the other.

ghost use Rattle.std.specs.Prelude.{◌≡◌, ◌||◌, not, ℕ, List, Option, OnOk, IfOk, false, is_err};
ghost use Rattle.run_output.specs.Carries.{Carries, Reaches};
ghost use Rattle.run_output.specs.Run.{Item};
ghost use Rattle.krl_types.specs.Entry.{Entry};
ghost use Rattle.krl_entries.specs.Reasons.{reasons_of};
ghost use Rattle.krl_entries.specs.Revocations.{Means};
ghost use Rattle.krl_audit.specs.Audit.{content_of};
ghost use Rattle.list_conditions.specs.Check.{ChecksFile, EndsCheck, check_status, condition_items};
ghost use Rattle.list_conditions.specs.Check.{condition_said, counts_items, end_items, is_json};
ghost use Rattle.list_conditions.specs.Check.{lines_counted, names_nobody};
ghost use Rattle.list_conditions.specs.Condition.{fails};
ghost use Rattle.list_conditions.specs.Role.{is_met};

use crate::condition::Condition;
use crate::object::{write_end, write_object};
use crate::role::Role;
use crate::text::write_line;
use audit_lines::{Refusal, keyless_lines};
use audit_text::Format;
use byte_streams::Sink;
use krl_audit::{Auditor, Counts, FileName, Judge};
use krl_entries::Revocations;
use run_faults::{Cause, RunFault};
use run_output::{Done, Printer, Run};
use span_sets::Held;
use std::alloc::{AllocError, Global};

/// Checks a list: has the auditor that queries it for the keys of files and prints, whether a
/// condition failed, and whether a file was not read. Only as JSON it prints a line for a condition
/// that holds.
#[derive(Drop)]
pub struct Checker<'q, 'w, W: Sink> {
    /// The list, and the printer.
    pub auditor: Auditor<'q, 'w, W>,
    /// True if a condition failed.
    pub refused: bool,
    /// True if a file of keys was not read.
    pub unread: bool,
}

impl<'q, 'w, W: Sink> Checker<'q, 'w, W> {
    /// A checker of a list, which has checked nothing and prints in this form.
    pub fn new(
        alloc: Global,
        list: &'q Revocations<Held>,
        form: Format,
        printer: Printer<'w, W>,
    ) -> Self
        ensures list { result.auditor.judge.list ≡ list.entry }
        ensures form { result.auditor.judge.shown.format ≡ form }
        ensures printer { result.auditor.run.printer ≡ printer.entry }
        ensures refused { result.refused ≡ false }
        ensures unread { result.unread ≡ false }
    {
        let shown = Role::Keep.shown(form);
        let line = Vec::new(alloc);
        Checker {
            auditor: Auditor {
                judge: Judge {
                    list,
                    canaries: None,
                    texts: None,
                    shown,
                },
                run: Run {
                    alloc,
                    printer,
                    line,
                },
                counts: Counts::NONE,
            },
            refused: false,
            unread: false,
        }
    }

    /// Checks a condition about the list or the file of this name, and prints its line if it fails
    /// or each condition has one.
    pub fn check<'a>(&mut self, name: &'a str, condition: Condition<'_>) -> Result<(), RunFault<'a>>
        ensures carries { Carries (condition_items self.old.auditor.judge.shown.format name.now
            condition.entry) result self.old.auditor.run.printer self.new.auditor.run.printer }
        ensures refused { self.new.refused ≡ (self.old.refused || fails condition.entry) }
        ensures unread { self.new.unread ≡ self.old.unread }
        ensures judge { self.new.auditor.judge ≡ self.old.auditor.judge }
    {
        let form = self.auditor.judge.shown.format;
        let fails = condition.fails();
        self.refused |= fails;
        if !is_json(form) && !fails {
            return Ok(());
        }
        let run = &mut self.auditor.run;
        let made = write_condition(run.alloc, form, name, condition, &mut run.line);
        run.say_line(name, made)
    }

    /// Prints the last line, if the form has one: whether all conditions held.
    pub fn say_end<'a>(&mut self, name: &'a str) -> Result<(), RunFault<'a>>
        ensures carries { Carries (end_items self.old.auditor.judge.shown.format name.now
            self.old.refused) result self.old.auditor.run.printer self.new.auditor.run.printer }
        ensures refused { self.new.refused ≡ self.old.refused }
        ensures unread { self.new.unread ≡ self.old.unread }
        ensures judge { self.new.auditor.judge ≡ self.old.auditor.judge }
    {
        if !is_json(self.auditor.judge.shown.format) {
            return Ok(());
        }
        let run = &mut self.auditor.run;
        let made = write_end(self.refused, &mut run.line);
        run.say_line(name, made)
    }

    /// Checks that a list revokes none of the keys of a file, or each of them, given the bytes of
    /// the file or why there are none. Prints the keys that do not meet the condition, in the form
    /// of an audit, and then the file.
    pub fn check_keys<'a>(
        &mut self,
        role: Role,
        name: &'a str,
        content: Result<&[u8], Refusal>,
    ) -> Result<(), RunFault<'a>>
        ensures checks { (entries : List Entry) → Means self.old.auditor.judge.list.now entries
            → ChecksFile self.old.auditor.judge.shown.format role (reasons_of entries) name.now
            (content_of content.entry) result self.old.auditor.run.printer
            self.new.auditor.run.printer self.old.refused self.new.refused }
        ensures unread { self.new.unread ≡ (self.old.unread || is_err content.entry) }
        ensures list { self.new.auditor.judge.list ≡ self.old.auditor.judge.list }
        ensures form { self.new.auditor.judge.shown.format ≡ self.old.auditor.judge.shown.format }
    {
        self.unread |= content.is_err();
        self.auditor.judge.canaries = None;
        self.auditor.judge.texts = None;
        self.auditor.judge.shown = role.shown(self.auditor.judge.shown.format);
        self.auditor.counts = Counts::NONE;
        let file = FileName {
            shown: name,
            read_as: Some(name),
        };
        self.auditor.audit_file(file, content)?;
        self.check_counts(role, name, content)
    }

    // Checks the counts of a file that was audited.
    fn check_counts<'a>(
        &mut self,
        role: Role,
        name: &'a str,
        content: Result<&[u8], Refusal>,
    ) -> Result<(), RunFault<'a>>
        ensures carries { Carries (counts_items self.old.auditor.judge.shown.format role name.now
            (lines_counted name.now (content_of content.entry) self.old.auditor.counts)) result
            self.old.auditor.run.printer self.new.auditor.run.printer }
        ensures refused { OnOk result (self.new.refused ≡ (self.old.refused || not (is_met role
            (lines_counted name.now (content_of content.entry) self.old.auditor.counts)))) }
        ensures unread { self.new.unread ≡ self.old.unread }
        ensures judge { self.new.auditor.judge ≡ self.old.auditor.judge }
    {
        let audited = self.auditor.counts;
        match lines_counted(self.auditor.run.alloc, name, content, audited) {
            Ok(counts) => self.check(name, Condition::Keys(role, counts)),
            Err(_) => Err(RunFault::whole(name, Cause::NoMemory)),
        }
    }

    /// Ends a check, whether a fault stopped it or not: sends the waiting output. The status is 255
    /// if it was stopped or a file was not read, otherwise 1 if a condition failed, otherwise 0.
    pub fn finish<'a>(&mut self, stop: Option<RunFault<'a>>) -> Done<'a>
        ensures ends { (before : Option (List ℕ)) (run : List Item)
            → Reaches before run stop.entry self.old.auditor.run.printer
            → EndsCheck run self.old.refused self.old.unread before
            self.new.auditor.run.printer.taken self.new.auditor.run.printer.failed result.status
            result.fault }
        ensures writer { self.new.auditor.run.printer.writer ≡ self.old.auditor.run.printer.writer }
        ensures refused { self.new.refused ≡ self.old.refused }
        ensures unread { self.new.unread ≡ self.old.unread }
        ensures judge { self.new.auditor.judge ≡ self.old.auditor.judge }
    {
        let done = self.auditor.run.printer.finish(stop);
        let fault = done.fault;
        Done {
            status: status(fault.is_some() || self.unread, self.refused),
            fault,
        }
    }
}

// The counts of an audited file. The lines of a file without a key count one by one, which an audit
// may report as a whole.
fn lines_counted(
    alloc: Global,
    name: &str,
    content: Result<&[u8], Refusal>,
    audited: Counts,
) -> Result<Counts, AllocError>
    ensures { IfOk result (λ counts.
        counts ≡ lines_counted name.now (content_of content.entry) audited) }
{
    let Ok(text) = content else {
        return Ok(audited);
    };
    match keyless_lines(alloc, name, text)? {
        Some(unread) => Ok(Counts { unread, ..audited }),
        None => Ok(audited),
    }
}

// Makes the line of a condition in a form.
fn write_condition(
    alloc: Global,
    form: Format,
    name: &str,
    condition: Condition<'_>,
    line: &mut Vec<u8>,
) -> Result<(), AllocError>
    ensures { OnOk result (line.new.items ≡ condition_said form name.now condition.entry) }
{
    if is_json(form) {
        write_object(name, condition, line)
    } else {
        write_line(alloc, name, condition, line)
    }
}

// Returns true if each condition is an object.
fn is_json(form: Format) -> bool
    ensures { result ≡ is_json form }
{
    match form {
        Format::Text | Format::Colour => false,
        Format::Json => true,
    }
}

/// Returns true if a list revokes nobody.
pub fn names_nobody(list: &Revocations<Held>) -> bool
    ensures { result ≡ names_nobody list.now }
{
    list.is_nothing()
}

// The exit status of a check.
fn status(unknown: bool, refused: bool) -> u8
    ensures { result ≡ check_status unknown refused }
{
    match (unknown, refused) {
        (true, _) => 255,
        (false, true) => 1,
        (false, false) => 0,
    }
}
