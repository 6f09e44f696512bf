//! Why no list is made.

ghost use Rattle.std.specs.Prelude.{◌≡◌, Some};
ghost use Rattle.text_run.specs.Fault.{line_fault, whole_fault};
ghost use Rattle.text_run.specs.Words.{make_cause_text};

use run_faults::{Cause, SpecCause};
use std::fmt;
use std::marker::Model;
use text_entries::{Hint, TextCause, TextFault, hint_at};

/// Why no list is made.
#[derive(Clone, Copy, Debug, PartialEq, Eq)]
pub enum MakeCause {
    /// A text was not read, or the list cannot be made of it.
    Run(Cause),
    /// A line of a text has a fault.
    Line(TextCause),
    /// No text has an entry.
    Empty,
    /// A text has no entry.
    NoEntry,
    /// The version is not above that of the list under the name.
    OldVersion,
}

impl fmt::Display for MakeCause {
    ghost output = { λ cause. Some (make_cause_text cause) };

    fn fmt<W: fmt::Write>(&self, f: &mut fmt::Formatter<W>) -> fmt::Result {
        match self {
            MakeCause::Run(cause) => cause.fmt(f),
            MakeCause::Line(cause) => cause.fmt(f),
            MakeCause::Empty => f.write_str("make 1 Empty"),
            MakeCause::NoEntry => f.write_str("make 2 NoEntry"),
            MakeCause::OldVersion => f.write_str("make 3 OldVersion"),
        }
    }
}

/// The name of the text or of the list, and why no list is made.
#[derive(Debug, Drop)]
pub struct MakeFault<'a> {
    /// The name of the text, or of the list.
    pub name: &'a str,
    /// The line of the text, counted from 1.
    pub line: Option<u64>,
    /// Why no list is made.
    pub cause: MakeCause,
    /// The form that the line may be meant in.
    pub hint: Option<Hint<'a>>,
}

impl<'a> Model for MakeFault<'a> {
    ghost use Rattle.text_run.specs.Fault.{MakeFault};

    ghost Value = { MakeFault };

    ghost view = { λ fault. record {
      name = fault.name.now;
      line = fault.line;
      cause = fault.cause;
      hint = fault.hint;
    } };
}

impl<'a> MakeFault<'a> {
    /// The fault of a text as a whole, or of the list.
    pub fn whole(name: &'a str, cause: MakeCause) -> MakeFault<'a>
        ensures { result ≡ whole_fault name.now cause }
    {
        MakeFault {
            name,
            line: None,
            cause,
            hint: None,
        }
    }
}

/// The fault of a line of a text. A failed allocation is a fault of the run itself, so no line is
/// reported.
pub(crate) fn line_fault<'a>(name: &'a str, text: &'a [u8], fault: TextFault) -> MakeFault<'a>
    ensures { result ≡ line_fault name.now text.now fault.line fault.cause }
{
    if fault.cause == TextCause::Spec(SpecCause::NoMemory) {
        return MakeFault::whole(name, MakeCause::Run(Cause::NoMemory));
    }
    MakeFault {
        name,
        line: Some(fault.line),
        cause: MakeCause::Line(fault.cause),
        hint: hint_at(text, fault),
    }
}
