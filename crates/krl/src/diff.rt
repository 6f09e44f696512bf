//! `krl diff`: what one list names and another does not.

ghost use Rattle.krl.specs.Runs.{IsCompared};

use crate::Krl;
use crate::loading::ListFiles;
use crate::names::names_of;
use byte_streams::ToWrite;
use krl_arguments::Diff;
use program_edge::end;
use show_run::{Comparison, diff_run};

/// Compares the lists of the task. Returns the exit status.
pub fn diff(rt: &HostRuntime, task: &Diff) -> u8
    ensures { IsCompared task.now result }
{
    let names = match names_of(rt, task.names.as_slice()) {
        Ok(names) => names,
        Err(status) => return status,
    };
    let comparison = Comparison {
        old: task.old,
        new: task.new,
        json: task.json,
        names: names.as_ref(),
    };
    let mut files = ListFiles { rt };
    let mut out = ToWrite::new(rt.stdout());
    let done = diff_run(rt.alloc(), &mut files, comparison, &mut out);
    end(rt, &Krl, &done)
}
