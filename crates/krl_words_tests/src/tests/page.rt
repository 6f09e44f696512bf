//! The callers of the pages of `krl_words`, `krl_arguments`, `krl_job`, `option_table` and
//! `program_version`.

ghost use Rattle.std.specs.Prelude.{◌≡◌, option_map};
ghost use Rattle.krl_job.specs.CommandLine.{given_by};
ghost use Rattle.krl_job.specs.Job.{job_of};

use clap::Command;
use krl_arguments::{Task, task_of};
use krl_job::{CommandLine, Mode, job_of};
use krl_words::command_of;
use option_table::{Argument, CommandFault, Syntax, is_set, with_arguments};
use program_version::VERSION;
use std::alloc::{AllocError, Global};

/// The mode of the job that words ask for, the program's name before them.
fn mode_of<'a>(
    alloc: Global,
    version: &'a str,
    words: &'a [&'a str],
) -> Result<Mode, CommandFault> {
    let job = command_of(alloc, version, words)?;
    Ok(job.mode)
}

/// The line that `--version` prints.
fn version_line(alloc: Global, name: &str) -> Result<String, AllocError> {
    format!(in alloc; "{name} {VERSION}\n")
}

/// The mode of the job that options ask for, if they ask for one.
fn mode_given(given: CommandLine) -> Option<Mode>
    ensures { result ≡ option_map (λ asked. asked.mode) (job_of (given_by given.entry)) }
{
    let job = job_of(given)?;
    Some(job.mode)
}

const VERBOSE: [Argument; 1] = [Argument {
    id: "verbose",
    syntax: Syntax::Letter('v'),
    help: "Say more",
}];

/// A command with one option.
fn command<'a>(alloc: Global) -> Result<Command<'a>, AllocError> {
    with_arguments(alloc, Command::new(alloc, "look"), &VERBOSE)
}

#[test]
fn a_letter_is_given(rt: HostRuntime) {
    for (words, wanted) in [
        (["look", "-v"].as_slice(), true),
        (["look"].as_slice(), false),
    ] {
        let look = command(rt.alloc()).ok().expect(&rt, "there is memory");
        let matches = look
            .try_get_matches_from(words)
            .ok()
            .expect(&rt, "the words can be parsed");
        assert!(rt; is_set(&matches, "verbose") == wanted);
    }
}

#[test]
fn words_have_a_mode(rt: HostRuntime) {
    let words = ["ssh-keygen", "-Q", "-l", "-f", "list"];
    let mode = mode_of(rt.alloc(), "1.2.3", &words).expect(&rt, "the words ask for a job");
    assert!(rt; mode == Mode::Query);
    let none = mode_of(rt.alloc(), "1.2.3", &["ssh-keygen", "-Q", "-f"])
        .err()
        .expect(&rt, "the file is missing");
    assert!(rt; none.number() == 2);
}

#[test]
fn a_program_has_a_version(rt: HostRuntime) {
    let wanted = version_line(rt.alloc(), "krl-keygen").expect(&rt, "there is memory");
    let words = ["krl-keygen", "--version"];
    let fault = mode_of(rt.alloc(), VERSION, &words)
        .err()
        .expect(&rt, "the words ask for the version");
    match fault {
        CommandFault::Words { help, text } => assert!(rt; help && text == wanted),
        _ => assert!(rt; false, "the version has a text"),
    }
}

#[test]
fn options_have_a_mode(rt: HostRuntime) {
    let given = CommandLine {
        list: true,
        certificates: false,
        make: false,
        query: false,
        update: false,
        file: Some("keys"),
        hash: None,
        authority: None,
        version: None,
        files: Vec::new(rt.alloc()),
        is_divided: false,
    };
    assert!(rt; mode_given(given) == Some(Mode::Keys));
}

/// The list of the task that words ask for, the program's name before them. `krl show` may have
/// several.
fn list_of<'a>(
    alloc: Global,
    version: &'a str,
    words: &'a [&'a str],
) -> Result<Option<&'a str>, CommandFault> {
    match task_of(alloc, version, words)? {
        Task::Audit(audit) => Ok(audit.list),
        Task::Logins(logins) => Ok(logins.list),
        Task::Check(check) => Ok(Some(check.list)),
        Task::Show(_) => Ok(None),
        Task::Make(make) => Ok(Some(make.list)),
        Task::Diff(diff) => Ok(Some(diff.new)),
    }
}

#[test]
fn words_have_a_list(rt: HostRuntime) {
    let words = ["krl", "audit", "-f", "r.krl", "/etc/ssh"];
    let list = list_of(rt.alloc(), "1.2.3", &words).expect(&rt, "the words ask for an audit");
    assert!(rt; list == Some("r.krl"));
    let none = list_of(rt.alloc(), "1.2.3", &["krl", "audit", "-f"])
        .err()
        .expect(&rt, "the list is missing");
    assert!(rt; none.status() == 2);
}
