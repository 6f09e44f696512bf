//! A list that is wanted, as the maker of lists over what is under its name.

use crate::run::{Wanted, make_run};
use byte_streams::Source;
use list_making::{Made, Maker};
use run_faults::{Cause, RunFault};
use std::alloc::Global;

impl<'a> Maker for Wanted<'a> {
    ghost use Rattle.std.specs.Prelude.{Ok};
    ghost use Rattle.krl_make.specs.Over.{Refuses, RunsOver};
    ghost use Rattle.run_faults.specs.RunFault.{run_fault_of};

    type Facts = ();

    type Fault = RunFault<'a>;

    ghost reads = { λ wanted. wanted.update };

    ghost makes = { λ wanted old bytes _. RunsOver wanted old (Ok bytes) };

    ghost refuses = { λ wanted old fault. Refuses wanted old fault };

    ghost fault_of = { λ wanted cause. run_fault_of wanted.name.now cause };

    fn reads_old(&self) -> bool {
        self.update
    }

    fn make<R: Source + Drop>(
        &self,
        alloc: Global,
        old: Option<R>,
    ) -> Result<Made<()>, RunFault<'a>> {
        make_run(alloc, self, old)
    }

    fn fault(&self, cause: Cause) -> RunFault<'a> {
        RunFault::whole(self.name, cause)
    }
}
