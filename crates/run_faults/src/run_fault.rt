//! Where and why a run stopped, and the line that reports it.

ghost use Rattle.std.specs.Prelude.{◌≡◌, IfOk};
ghost use Rattle.run_faults.specs.Keys.{run_fault_at};
ghost use Rattle.run_faults.specs.RunFault.{fault_text, line_part, run_fault_of};

use crate::cause::Cause;
use line_pieces::{Escaped, Printed, Words, put};
use std::alloc::{AllocError, Global};
use std::marker::Model;

/// The name of the current file or list, and why the run stopped there.
#[derive(Debug, Drop)]
pub struct RunFault<'a> {
    /// The name of the file, or `output`.
    pub name: &'a str,
    /// The line of the file, counted from 1.
    pub line: Option<u64>,
    /// Why the run stopped there.
    pub cause: Cause,
}

impl<'a> Model for RunFault<'a> {
    ghost use Rattle.run_faults.specs.RunFault.{RunFault};

    ghost Value = { RunFault };

    ghost view = { λ fault. record {
      name = fault.name.now;
      line = fault.line;
      cause = fault.cause;
    } };
}

impl<'a> RunFault<'a> {
    /// The fault of a file as a whole, or of the output.
    pub fn whole(name: &'a str, cause: Cause) -> RunFault<'a>
        ensures { result ≡ run_fault_of name.now cause }
    {
        RunFault {
            name,
            line: None,
            cause,
        }
    }

    /// The fault of a line of a file.
    pub fn at_line(name: &'a str, number: u64, cause: Cause) -> RunFault<'a>
        ensures { result ≡ run_fault_at name.now number cause }
    {
        RunFault {
            name,
            line: Some(number),
            cause,
        }
    }
}

// The number of the line, if there is one.
#[derive(Clone, Copy)]
struct LinePart(Option<u64>);

impl Printed for LinePart {
    ghost text = { λ part. line_part part.0 };

    fn push_to(&self, out: &mut Vec<u8>) -> Result<(), AllocError> {
        match self.0 {
            None => Ok(()),
            Some(number) => put!(out; b"line ", number, b": "),
        }
    }
}

/// The line for standard error, without its line feed: the program, the name with its control bytes
/// escaped, the line of the file, and the fault. Fails only if an allocation fails.
#[tactic(auto, unfolding(crate::specs::RunFault::fault_text))]
pub fn fault_text(alloc: Global, program: &[u8], fault: &RunFault) -> Result<Vec<u8>, AllocError>
    ensures { IfOk result (λ text. text.items ≡ fault_text program.now fault.now) }
{
    let cause = fault.cause.to_string(alloc)?;
    let mut text = Vec::new(alloc);
    put!(&mut text; Words(program), b": ", Escaped(fault.name.as_bytes()), b": ",
        LinePart(fault.line), Words(cause.as_bytes()))?;
    Ok(text)
}
