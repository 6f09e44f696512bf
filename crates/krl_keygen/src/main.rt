//! Lists keys, and makes, prints and queries key revocation lists, as ssh-keygen(1) does.
#![tactic(auto)]

ghost use Rattle.std.specs.Prelude.{◌≡◌, ◌⊎◌};
ghost use Rattle.krl_keygen.specs.Ends.{EndsMode, IsListed, IsMade, IsQueried};

use byte_streams::{FromBuffer, ToWrite};
use key_listing::{ListMode, list_run};
use krl_job::{Job, Mode};
use krl_make::Wanted;
use krl_runs::query_run;
use krl_system::{date, moment, open_authority, open_files, open_list, open_or_input};
use krl_words::command_of;
use list_file::ListTarget;
use list_making::make_at;
use option_table::CommandFault;
use program_edge::{Lines, Program, end, refuse, run, stop};
use program_version::VERSION;
use run_faults::{RunFault, fault_text};
use std::alloc::AllocError;
use std::process::ExitCode;

// The name with which its lines on standard error begin.
const NAME: &str = "ssh-keygen";

// The program.
#[derive(Clone, Copy)]
struct Tool;

impl Lines for Tool {
    fn fault_line(&self, rt: &HostRuntime, fault: &RunFault) -> Result<Vec<u8>, AllocError> {
        let mut line = fault_text(rt.alloc(), NAME.as_bytes(), fault)?;
        line.push(b'\n')?;
        Ok(line)
    }

    fn print_refusal(&self, rt: &HostRuntime, fault: &CommandFault) {
        let _ = rt.eprintln(format_args!("{NAME}: {fault}"));
    }
}

impl Program for Tool {
    ghost use Rattle.krl_keygen.specs.Ends.{EndsKeygen};

    ghost does = { λ _ words status. EndsKeygen words status };

    fn run(&self, rt: &HostRuntime, words: &[String]) -> u8 {
        match command_of(rt.alloc(), VERSION, words) {
            Ok(job) => run_job(rt, &job),
            Err(fault) => refuse(rt, self, &fault),
        }
    }
}

fn main(rt: HostRuntime) -> ExitCode {
    run(&rt, &Tool)
}

// Does the job. Returns the exit status.
fn run_job(rt: &HostRuntime, job: &Job) -> u8
    ensures { EndsMode job.now.mode job.now result }
{
    match job.mode {
        Mode::Keys => list_keys(rt, job, ListMode::Keys),
        Mode::Certs => list_keys(rt, job, ListMode::Certs),
        Mode::Make => make_list(rt, job),
        Mode::Query => ask_list(rt, job),
    }
}

// `-l` and `-L`: lists the keys of the file, or its certificates.
fn list_keys(rt: &HostRuntime, job: &Job, mode: ListMode) -> u8
    ensures { IsListed mode job.now result }
{
    let file = open_or_input(rt, job.file);
    let mut out = ToWrite::new(rt.stdout());
    let moment = moment(rt);
    let done = list_run(rt.alloc(), mode, job.hash, &file, moment, &mut out);
    end(rt, &Tool, &done)
}

// `-Q`: prints the contents of the list, if `-l` requests it, and queries it for the keys of the
// files.
fn ask_list(rt: &HostRuntime, job: &Job) -> u8
    ensures { (result ≡ 255) ⊎ IsQueried job.now result }
{
    let krl = match open_list(rt, job.file) {
        Ok(krl) => krl,
        Err(cause) => return stop(rt, &Tool, &RunFault::whole(job.file, cause)),
    };
    let files = match open_files(rt, job.files.as_slice(), false) {
        Ok(files) => files,
        Err(fault) => return stop(rt, &Tool, &fault),
    };
    let mut out = ToWrite::new(rt.stdout());
    let (done, _) = query_run(
        rt.alloc(),
        job.file,
        FromBuffer::new(krl),
        job.dump,
        files.as_slice(),
        &mut out,
    );
    end(rt, &Tool, &done)
}

// `-k`: makes a list, from the old one if `-u` is given. An old list that cannot be opened is
// reported before any file is read.
fn make_list(rt: &HostRuntime, job: &Job) -> u8
    ensures { (result ≡ 255) ⊎ ((result ≡ 0) × IsMade job.now) }
{
    let mut place = ListTarget::new(rt, NAME, job.file);
    if job.update
        && let Err(cause) = place.open_old()
    {
        return stop(rt, &Tool, &RunFault::whole(job.file, cause));
    }
    let authority = open_authority(rt, &job.authority);
    let files = match open_files(rt, job.files.as_slice(), true) {
        Ok(files) => files,
        Err(fault) => return stop(rt, &Tool, &fault),
    };
    let date = match date(rt) {
        Ok(date) => date,
        Err(cause) => return stop(rt, &Tool, &RunFault::whole(job.file, cause)),
    };
    let wanted = Wanted {
        name: job.file,
        update: job.update,
        version: job.version,
        date,
        authority: &authority,
        files: files.as_slice(),
    };
    let made = make_at(rt.alloc(), &wanted, &mut place);
    place.release();
    match made {
        Ok(_) => 0,
        Err(fault) => stop(rt, &Tool, &fault),
    }
}
