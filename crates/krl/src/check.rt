//! `krl check`: a list, checked before it is put in force.

ghost use Rattle.krl.specs.Runs.{IsChecked};

use crate::Krl;
use crate::ending::fail_in_words;
use crate::loading::{INPUT, ListFiles, open, read};
use crate::names::names_of;
use crate::sshd::used_by;
use audit_lines::Refusal;
use byte_streams::{FromRead, ToWrite};
use check_run::{Host, Loaded, check_run};
use krl_arguments::Check;
use krl_system::present;
use program_edge::end;
use std::alloc::AllocError;

/// Checks what the task names. Returns the exit status.
pub fn check(rt: &HostRuntime, task: &Check) -> u8
    ensures { IsChecked task.now result }
{
    let names = match names_of(rt, task.names.as_slice()) {
        Ok(names) => names,
        Err(status) => return status,
    };
    let sshd = match used_by(rt, task.list, task.sshd) {
        Ok(sshd) => sshd,
        Err(status) => return status,
    };
    let loaded = Loaded {
        names: names.as_ref(),
        sshd,
    };
    let mut files = ListFiles { rt };
    let mut out = ToWrite::new(rt.stdout());
    match check_run(rt.alloc(), task, loaded, &mut files, &mut out) {
        Ok(done) => end(rt, &Krl, &done),
        Err(why) => fail_in_words(rt, task.list, why.words()),
    }
}

impl<'a> Host for ListFiles<'a> {
    fn read_keys(
        &mut self,
        name: &str,
        text: &mut Vec<u8>,
    ) -> Result<Result<(), Refusal>, AllocError> {
        if name == INPUT {
            return read(&mut FromRead::new(self.rt.stdin()), text);
        }
        match open(self.rt, name) {
            Ok(file) => read(&mut FromRead::new(file), text),
            Err(refusal) => Ok(Err(refusal)),
        }
    }

    fn moment(&mut self) -> Option<u64> {
        present(self.rt)
    }
}
