//! The words of the command line (krl(1), SYNOPSIS).

ghost use Rattle.std.specs.Prelude.{◌≡◌, map};
ghost use Rattle.clap.specs.Simple.{subcommand_rows_of};
ghost use Rattle.krl_arguments.specs.Command.{AsksFor, IsCommand};

use crate::options::program;
use crate::shown::text_for;
use crate::task::Task;
use crate::tasks::task_in;
use clap::ArgMatches;
use option_table::{CommandFault, fault_of};
use std::alloc::Global;
use std::convert::AsStr;

/// Returns the task that the words ask for, the program's name before them (krl(1), SYNOPSIS).
/// Returns `Words` if they ask for help or the version, cannot be parsed, or do not go together.
/// The version is what `--version` prints after the name.
pub fn task_of<'a, S: AsStr>(
    alloc: Global,
    version: &'a str,
    words: &'a [S],
) -> Result<Task<'a>, CommandFault>
    ensures { IsCommand (map S.text words.entry.now) result }
{
    let program = program(alloc, version)?;
    match program.try_get_matches_from(words) {
        Ok(matches) => asked_for(alloc, &matches),
        Err(error) => Err(fault_of(&error, text_for(alloc, version, words))),
    }
}

// The task of words that can be parsed.
fn asked_for<'a>(alloc: Global, matches: &ArgMatches<'a>) -> Result<Task<'a>, CommandFault>
    ensures { AsksFor (subcommand_rows_of matches.now) result }
{
    match task_in(alloc, matches)? {
        Ok(task) => Ok(task),
        Err(misuse) => Err(CommandFault::Words {
            help: false,
            text: String::from_str(alloc, misuse.text())?,
        }),
    }
}
