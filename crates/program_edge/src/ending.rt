//! How a program ends: with a status, and a line that says why it stopped.

ghost use Rattle.std.specs.Prelude.{◌≡◌, ◌⊎◌};
ghost use Rattle.option_table.specs.Fault.{command_fault_status};

use byte_streams::{ToWrite, send};
use option_table::CommandFault;
use run_faults::{Cause, RunFault};
use run_output::{Done, FAILED};
use std::alloc::AllocError;

// The name of standard output in a fault of the output.
const OUTPUT: &str = "output";

/// The lines with which a program ends.
pub trait Lines {
    /// The line that says why a run stopped, with its end.
    fn fault_line(&self, rt: &HostRuntime, fault: &RunFault) -> Result<Vec<u8>, AllocError>;

    /// Prints on standard error why words are refused that have no text of their own.
    fn print_refusal(&self, rt: &HostRuntime, fault: &CommandFault);
}

/// Reports why the run stopped, if it did, and returns its status.
pub fn end<L: Lines>(rt: &HostRuntime, program: &L, done: &Done) -> u8
    ensures { result ≡ done.now.status }
{
    if let Some(fault) = &done.fault {
        report(rt, program, fault);
    }
    done.status
}

/// Reports why a run stopped that printed nothing, and returns its status.
pub fn stop<L: Lines>(rt: &HostRuntime, program: &L, fault: &RunFault) -> u8
    ensures { result ≡ 255 }
{
    report(rt, program, fault);
    FAILED
}

// Prints on standard error why a run stopped. If the line cannot be allocated, nothing is printed.
fn report<L: Lines>(rt: &HostRuntime, program: &L, fault: &RunFault) {
    if let Ok(line) = program.fault_line(rt, fault) {
        print_line(rt, line.as_slice());
    }
}

/// Prints help or the version, or why the words are refused, and returns the status. If help cannot
/// be printed, that is a fault of the output.
pub fn refuse<L: Lines>(rt: &HostRuntime, program: &L, fault: &CommandFault) -> u8
    ensures { (result ≡ command_fault_status fault.now) ⊎ (result ≡ 255) }
{
    match fault {
        CommandFault::Words { help: true, text } => return print_help(rt, program, text.as_bytes()),
        CommandFault::Words { help: false, text } => print_line(rt, text.as_bytes()),
        CommandFault::Usage | CommandFault::NoMemory => program.print_refusal(rt, fault),
    }
    fault.status()
}

// Prints the help or the version, and returns the status.
fn print_help<L: Lines>(rt: &HostRuntime, program: &L, text: &[u8]) -> u8
    ensures { (result ≡ 0) ⊎ (result ≡ 255) }
{
    match send(&mut ToWrite::new(rt.stdout()), text) {
        Ok(_) => 0,
        Err(part) => {
            let count = part.count as u64;
            stop(
                rt,
                program,
                &RunFault::whole(OUTPUT, Cause::Output { count }),
            )
        }
    }
}

/// Prints a line on standard error. A fault of standard error cannot be reported.
pub fn print_line(rt: &HostRuntime, line: &[u8]) {
    let _ = send(&mut ToWrite::new(rt.stderr()), line);
}
