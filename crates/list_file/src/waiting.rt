//! Waiting for another update of a list.

ghost use Rattle.std.specs.Prelude.{◌≡◌, ◌≤◌, ◌↔◌, ◌++◌, codes, IfOk, IsErr};
ghost use Rattle.ssh_cert.specs.Escape.{escaped};

use byte_streams::{ToWrite, send};
use line_pieces::{Escaped, Words, put};
use run_faults::{Cause, FileFault};
use std::alloc::{AllocError, Global};
use std::thread::sleep;
use std::time::Duration;

// The length of a turn of waiting in milliseconds: short, since an update takes one or so.
const TURN: u64 = 10;
// The number of turns: a minute, which is far longer than an update takes.
pub(crate) const TURNS: u32 = 6_000;
// The number of turns in a second.
const SECOND: u32 = 100;

/// How long an update has waited for others.
#[derive(Drop)]
pub struct Waiting<'a> {
    program: &'static str,
    name: &'a str,
    turns: u32,
}

impl<'a> Waiting<'a> {
    /// An update by this program of the list with this name, which has not waited yet.
    pub fn new(program: &'static str, name: &'a str) -> Waiting<'a>
        ensures { result.turns ≡ 0 }
    {
        Waiting {
            program,
            name,
            turns: 0,
        }
    }

    /// Waits for a turn. After a second it prints a line on standard error, once. Fails after the
    /// last turn.
    pub fn wait(&mut self, rt: &HostRuntime) -> Result<(), Cause>
        ensures ends { IsErr result ↔ (TURNS ≤ self.old.turns) }
    {
        if self.turns >= TURNS {
            return Err(Cause::File(FileFault::Locked));
        }
        if self.turns == SECOND {
            announce(rt, self.program, self.name);
        }
        self.turns += 1;
        sleep(rt, Duration::from_millis(TURN));
        Ok(())
    }
}

// Prints on standard error that an update waits. If the line cannot be allocated, nothing is
// printed, and a fault of standard error cannot be reported.
fn announce(rt: &HostRuntime, program: &str, name: &str) {
    if let Ok(line) = waiting_text(rt.alloc(), program, name) {
        let _ = send(&mut ToWrite::new(rt.stderr()), line.as_slice());
    }
}

// The line that is printed.
fn waiting_text(alloc: Global, program: &str, name: &str) -> Result<Vec<u8>, AllocError>
    ensures { IfOk result (λ text. text.items ≡ program.now
        ++ (codes ": waiting for another update of " ++ (escaped name.now ++ codes "\n"))) }
{
    let mut text = Vec::new(alloc);
    put!(&mut text; Words(program.as_bytes()), b": waiting for another update of ",
        Escaped(name.as_bytes()), b"\n")?;
    Ok(text)
}
