//! The whole check of a list.

ghost use Rattle.std.specs.Prelude.{◌≡◌, Some, false};
ghost use Rattle.any_list.specs.List.{IsRead};
ghost use Rattle.any_list.specs.Told.{Tells};
ghost use Rattle.check_run.specs.Run.{EndsBeside, EndsCheckRun};

use crate::checking::{Job, check_by};
use crate::host::Host;
use crate::limits::{Limits, Loaded, Unanswered, age_limit};
use crate::lists::{read_lost, read_other};
use crate::version::print_version;
use any_list::read_given;
use byte_streams::Sink;
use krl_arguments::Check;
use run_faults::RunFault;
use run_output::{Done, FAILED};
use std::alloc::Global;

/// Checks a list before it is put in force, or prints its version if the task says so. The list
/// must be read, as must the other lists of the task. Then the conditions of krl(1) are checked in
/// their order: OpenSSH reads the list alike, it revokes somebody, it is neither older than another
/// list nor older than it may be, it names all that another list names, an sshd uses it, and it
/// does to the keys of each file what it must. For each condition that fails a line is printed,
/// after the keys that do not meet it, or after what the list lacks, by the names of authorities,
/// if some are given. The caller says which list the sshd uses. The status is 255 if a list or a
/// file was not read or the check was stopped, otherwise 1 if a condition failed, otherwise 0.
/// `Err` is a list that was read and about which nothing was said.
pub fn check_run<'a, H: Host, W: Sink>(
    alloc: Global,
    task: &Check<'a>,
    loaded: Loaded<'a, '_>,
    host: &mut H,
    out: &mut W,
) -> Result<Done<'a>, Unanswered>
    requires { W.has_failed out.old ≡ false }
    ensures { Tells (H.Lists.told host.old) (H.Lists.told host.new)
        (λ told. EndsCheckRun told task.now loaded.entry (W.taken out.old) (W.taken out.new)
        (W.has_failed out.new) result) }
{
    let given = match read_given(alloc, host, task.list) {
        Ok(given) => given,
        Err(fault) => return Ok(refused(fault)),
    };
    if task.print_version {
        print_version(alloc, &given.list, out)
    } else {
        let given = &given;
        let job = Job {
            given,
            task,
            loaded,
        };
        check_beside(alloc, job, host, out)
    }
}

// The end of a check by a list that is refused. Nothing was printed.
fn refused<'a>(fault: RunFault<'a>) -> Done<'a>
    ensures status { result.status ≡ 255 }
    ensures fault { result.fault ≡ Some fault.entry }
{
    Done {
        status: FAILED,
        fault: Some(fault),
    }
}

// Checks a list that was read, beside the other ones.
fn check_beside<'a, H: Host, W: Sink>(
    alloc: Global,
    job: Job<'a, '_>,
    host: &mut H,
    out: &mut W,
) -> Result<Done<'a>, Unanswered>
    requires read { IsRead job.given.now }
    requires working { W.has_failed out.old ≡ false }
    ensures { Tells (H.Lists.told host.old) (H.Lists.told host.new)
        (λ told. EndsBeside told job.entry.given.now.list.name.now job.entry.given.now.bytes
        job.entry.task.now job.entry.loaded (W.taken out.old) (W.taken out.new)
        (W.has_failed out.new) result) }
{
    let Job {
        given,
        task,
        loaded,
    } = job;
    let other = match read_other(alloc, host, task.newer_than) {
        Ok(other) => other,
        Err(fault) => return Ok(refused(fault)),
    };
    let held = &given.list.revocations;
    let lost = match read_lost(alloc, host, task.superset_of, held, loaded.names) {
        Ok(lost) => lost,
        Err(fault) => return Ok(refused(fault)),
    };
    match age_limit(host, task.max_age) {
        Ok(age) => {
            let lost = &lost;
            let limits = Limits {
                other,
                age,
                lost,
                sshd: loaded.sshd,
            };
            Ok(check_by(alloc, job, limits, host, out))
        }
        Err(why) => Err(why),
    }
}
