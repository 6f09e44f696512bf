//! The words of the command line (ssh-keygen(1), SYNOPSIS).

ghost use Rattle.std.specs.Prelude.{◌≡◌, map};
ghost use Rattle.clap.specs.Matches.{found_of};
ghost use Rattle.clap.specs.Walk.{rows_of};
ghost use Rattle.krl_words.specs.Command.{AsksFor, IsCommand};
ghost use Rattle.krl_words.specs.Options.{given_of};

use crate::given::given_in;
use crate::options::program;
use crate::order::is_divided;
use crate::shown::text_for;
use clap::ArgMatches;
use krl_job::{Job, job_of};
use option_table::{CommandFault, fault_of};
use std::alloc::Global;
use std::convert::AsStr;

/// Returns the job that the words ask for, the program's name before them (ssh-keygen(1),
/// SYNOPSIS). Returns `Words` if they cannot be parsed or ask for help or the version, `Usage` if
/// the options do not go together, a file is named between two uses of `-s`, or a value is invalid,
/// `NoMemory` if an allocation fails. The version is what `--version` prints after the name.
pub fn command_of<'a, S: AsStr>(
    alloc: Global,
    version: &'a str,
    words: &'a [S],
) -> Result<Job<'a>, CommandFault>
    ensures { IsCommand (map S.text words.entry.now) result }
{
    let program = program(alloc, version)?;
    match program.try_get_matches_from(words) {
        Ok(matches) => job_in(alloc, &matches, is_divided(words)),
        Err(error) => Err(fault_of(&error, text_for(alloc, version, words))),
    }
}

// The job of words that can be parsed.
fn job_in<'a>(
    alloc: Global,
    matches: &ArgMatches<'a>,
    is_divided: bool,
) -> Result<Job<'a>, CommandFault>
    ensures { AsksFor (given_of is_divided (rows_of (found_of matches.now))) result }
{
    let given = given_in(alloc, matches, is_divided)?;
    match job_of(given) {
        Some(job) => Ok(job),
        None => Err(CommandFault::Usage),
    }
}
