//! The words of the command line.

use crate::tests::answered::ran_out;
use krl_arguments::{Audit, Task, task_of};
use krl_job::{Job, Mode};
use krl_words::command_of;
use option_table::CommandFault;

// The version of both programs.
const VERSION: &str = "1.2.3";

#[test]
fn a_command(rt: HostRuntime) {
    let words = [
        "ssh-keygen",
        "-k",
        "-f",
        "r.krl",
        "-u",
        "-s",
        "none",
        "-z",
        "5",
        "a",
        "b",
    ];
    match command_of(rt.alloc(), VERSION, &words) {
        Ok(
            Job {
                mode,
                file,
                update,
                version,
                files,
                ..
            },
        ) => {
            assert!(rt; mode == Mode::Make && file == "r.krl" && update);
            assert!(rt; version == Some(5) && files.len() == 2);
        }
        Err(CommandFault::NoMemory) => ran_out(&rt),
        Err(_) => assert!(rt; false, "the words ask for a job"),
    }
}

// Words that cannot be parsed, whose fault has a text.
#[test]
fn words_that_are_refused(rt: HostRuntime) {
    match command_of(rt.alloc(), VERSION, &["ssh-keygen", "-Y"]) {
        Err(CommandFault::Words { help, text }) => assert!(rt; !help && !text.is_empty()),
        Err(CommandFault::NoMemory) => ran_out(&rt),
        _ => assert!(rt; false, "the words are refused"),
    }
}

#[test]
fn a_task(rt: HostRuntime) {
    let words = ["krl", "audit", "-t", "r.txt", "-a", "--json", "x", "y"];
    match task_of(rt.alloc(), VERSION, &words) {
        Ok(
            Task::Audit(
                Audit {
                    list: None,
                    texts,
                    all,
                    json,
                    files,
                    ..
                },
            ),
        ) => assert!(rt; texts.len() == 1 && all && json && files.len() == 2),
        Err(CommandFault::NoMemory) => ran_out(&rt),
        _ => assert!(rt; false, "the words ask for an audit"),
    }
}

// A version that is requested together with a condition.
#[test]
fn a_task_that_is_refused(rt: HostRuntime) {
    let words = ["krl", "check", "--print-version", "--canary", "c", "r.krl"];
    match task_of(rt.alloc(), VERSION, &words) {
        Err(CommandFault::Words { help, text }) => assert!(rt; !help && !text.is_empty()),
        Err(CommandFault::NoMemory) => ran_out(&rt),
        _ => assert!(rt; false, "the words are refused"),
    }
}
