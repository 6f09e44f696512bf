//! The display of an audit on a terminal: colours, and a line that says how far it is.

ghost use Rattle.std.specs.Prelude.{◌≡◌, false};

use audit_run::{Screen as Shows, Summary, Terminal, push_progress, push_wipe};
use byte_streams::{Failed, Sink, ToWrite, send};
use std::env::{self, VarError};
use std::io::{IsTerminal, Stdout};
use std::time::{Duration, Instant};

// When the line is shown first, and how long one is shown before the next, in milliseconds.
const FIRST: u64 = 1_000;

const NEXT: u64 = 100;

/// Whether standard output is a terminal, and what the environment says about its colours.
pub fn terminal(rt: &HostRuntime) -> Terminal {
    Terminal {
        is_terminal: rt.stdout().is_terminal(),
        no_colour: has_no_colour(rt),
        is_dumb: is_dumb(rt),
    }
}

// Returns true if NO_COLOR has a value. One that cannot be read is a value too.
fn has_no_colour(rt: &HostRuntime) -> bool {
    match env::var(rt, "NO_COLOR") {
        Ok(value) => !value.is_empty(),
        Err(VarError::NotPresent) => false,
        Err(_) => true,
    }
}

// Returns true if the terminal shows escape sequences as text.
fn is_dumb(rt: &HostRuntime) -> bool {
    match env::var(rt, "TERM") {
        Ok(value) => value.as_str() == "dumb",
        Err(_) => false,
    }
}

/// Standard output, and a line on standard error that says how far a run is. The line is wiped
/// before anything is written to standard output.
#[derive(Drop)]
pub struct Screen<'a> {
    rt: &'a HostRuntime,
    out: ToWrite<Stdout>,
    // When the line is shown next. There is none if standard error is no terminal.
    next: Option<Instant>,
    // How many characters of the line are shown.
    shown: usize,
}

impl<'a> Screen<'a> {
    /// A screen that shows no line yet.
    pub fn new(rt: &'a HostRuntime) -> Self
        ensures { ⟦<ToWrite<Stdout> as Sink>⟧.has_failed result.out ≡ false }
    {
        let next = if rt.stderr().is_terminal() {
            first(rt)
        } else {
            None
        };
        Screen {
            rt,
            out: ToWrite::new(rt.stdout()),
            next,
            shown: 0,
        }
    }

    /// Wipes the line.
    pub fn wipe(&mut self)
        ensures { self.new.out ≡ self.old.out }
    {
        if self.shown == 0 {
            return;
        }
        let mut blanks = Vec::new(self.rt.alloc());
        if push_wipe(self.shown, &mut blanks).is_ok() {
            self.print(blanks.as_slice());
        }
        self.shown = 0;
    }

    // Prints on standard error. A fault of it cannot be reported.
    fn print(&self, bytes: &[u8]) {
        let _ = send(&mut ToWrite::new(self.rt.stderr()), bytes);
    }
}

impl<'a> Sink for Screen<'a> {
    ghost taken = { λ screen. ⟦<ToWrite<Stdout> as Sink>⟧.taken screen.out };

    ghost has_failed = { λ screen. ⟦<ToWrite<Stdout> as Sink>⟧.has_failed screen.out };

    fn write(&mut self, bytes: &[u8]) -> Result<usize, Failed> {
        self.wipe();
        self.out.write(bytes)
    }

    fn failed(&self) -> bool {
        self.out.failed()
    }
}

impl<'a> Shows for Screen<'a> {
    // Shows how far the run is, after its first second.
    fn show(&mut self, summary: &Summary) {
        let Some(next) = self.next else {
            return;
        };
        let Ok(now) = Instant::now(self.rt) else {
            return;
        };
        if now < next {
            return;
        }
        let mut line = Vec::new(self.rt.alloc());
        if push_progress(summary, &mut line).is_ok() {
            // The line begins with a carriage return.
            let length = line.len().saturating_sub(1);
            // A line covers one that is no longer. "1 file" is shorter than "0 files".
            if length < self.shown {
                self.wipe();
            }
            self.print(line.as_slice());
            self.shown = length;
        }
        self.next = now.checked_add(Duration::from_millis(NEXT));
    }
}

// When the line is shown first. Without a clock it is never shown.
fn first(rt: &HostRuntime) -> Option<Instant> {
    match Instant::now(rt) {
        Ok(now) => now.checked_add(Duration::from_millis(FIRST)),
        Err(_) => None,
    }
}
