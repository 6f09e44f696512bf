//! Finds revoked keys in files, and checks, shows, makes and compares lists, as krl(1) says.
#![tactic(auto)]

mod audit;
mod canaries;
mod check;
mod diff;
mod disk;
mod ending;
mod loading;
mod logins;
mod make;
mod names;
mod screen;
mod show;
mod sshd;
mod texts;

use crate::audit::audit;
use crate::check::check;
use crate::diff::diff;
use crate::ending::{fault_line, reason_of};
use crate::logins::logins;
use crate::make::make;
use crate::show::show;
use byte_streams::{FromRead, Source};
use krl_arguments::{Task, task_of};
use option_table::CommandFault;
use program_edge::{Lines, Program, refuse, run};
use program_version::VERSION;
use run_faults::RunFault;
use std::alloc::AllocError;
use std::fs::File;
use std::io::Stdin;
use std::process::ExitCode;

// The name with which its lines on standard error begin.
const NAME: &str = "krl";

/// The program.
#[derive(Clone, Copy)]
struct Krl;

impl Lines for Krl {
    fn fault_line(&self, rt: &HostRuntime, fault: &RunFault) -> Result<Vec<u8>, AllocError> {
        fault_line(rt.alloc(), reason_of(rt, fault), fault)
    }

    fn print_refusal(&self, rt: &HostRuntime, fault: &CommandFault) {
        let why = match fault {
            CommandFault::Usage | CommandFault::Words { .. } => "a word is not UTF-8",
            CommandFault::NoMemory => "memory: out of memory [run 1 NoMemory]",
        };
        let _ = rt.eprintln(format_args!("{NAME}: {why}"));
    }
}

impl Program for Krl {
    ghost use Rattle.audit_run.specs.Reading.{SomeFailed};
    ghost use Rattle.krl.specs.Program.{EndsKrl};

    ghost does = { λ _ words status.
        EndsKrl (SomeFailed ⟦<FromRead<File> as Source>⟧.has_failed)
        (SomeFailed ⟦<FromRead<Stdin> as Source>⟧.has_failed) words status };

    fn run(&self, rt: &HostRuntime, words: &[String]) -> u8 {
        match task_of(rt.alloc(), VERSION, words) {
            Ok(Task::Audit(task)) => audit(rt, &task),
            Ok(Task::Logins(task)) => logins(rt, &task),
            Ok(Task::Check(task)) => check(rt, &task),
            Ok(Task::Show(task)) => show(rt, &task),
            Ok(Task::Make(task)) => make(rt, &task),
            Ok(Task::Diff(task)) => diff(rt, &task),
            Err(fault) => refuse(rt, self, &fault),
        }
    }
}

fn main(rt: HostRuntime) -> ExitCode {
    run(&rt, &Krl)
}
