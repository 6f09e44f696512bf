//! A program, from its words to its exit status.

ghost use Rattle.std.specs.Prelude.{◌≡◌, ◌≢◌, ℕ, List, map};
ghost use Rattle.std.specs.IoError.{error_kind};
ghost use Rattle.program_edge.specs.Ends.{EndsProgram};

use crate::ending::{Lines, refuse, stop};
use krl_system::{NOTHING, open_placeholders};
use option_table::CommandFault;
use run_faults::{Cause, FileFault, RunFault};
use std::convert::AsStr;
use std::env;
use std::io::{self, ErrorKind};
use std::process::ExitCode;

/// A program: what it does.
pub trait Program {
    // what it does by these words, and with which exit status
    ghost does: { Self → List (List ℕ) → ℕ → Type 0 };

    /// Does what the words ask for, the program's name before them. Returns the exit status.
    fn run(&self, rt: &HostRuntime, words: &[String]) -> u8
        ensures { does self.now (map ⟦<String as AsStr>⟧.text words.now) result };
}

/// Runs a program, with the file descriptors of closed standard streams occupied.
pub fn run<P: Program + Lines>(rt: &HostRuntime, program: &P) -> ExitCode {
    let status = match open_placeholders(rt) {
        Ok(placeholders) => {
            let status = run_words(rt, program);
            drop(placeholders);
            status
        }
        Err(_) => stop(
            rt,
            program,
            &RunFault::whole(NOTHING, Cause::File(FileFault::Open)),
        ),
    };
    ExitCode::from(status)
}

// Does what the command line asks for. Returns the exit status.
fn run_words<P: Program + Lines>(rt: &HostRuntime, program: &P) -> u8
    ensures { EndsProgram (P.does program.now) result }
{
    let words = match env::args(rt) {
        Ok(words) => words,
        Err(error) => return refuse(rt, program, &fault_of_words(&error)),
    };
    let Ok(words) = words.collect::<Vec<String>>(rt.alloc()) else {
        return refuse(rt, program, &CommandFault::NoMemory);
    };
    program.run(rt, words.as_slice())
}

// Words that are not text are a misuse. The only other error is a failed allocation.
fn fault_of_words(error: &io::Error) -> CommandFault
    ensures memory { error_kind error.now ≡ ErrorKind.OutOfMemory
        → result ≡ CommandFault.NoMemory }
    ensures other { error_kind error.now ≢ ErrorKind.OutOfMemory → result ≡ CommandFault.Usage }
{
    if error.kind() == ErrorKind::OutOfMemory {
        CommandFault::NoMemory
    } else {
        CommandFault::Usage
    }
}
