//! The values of the options in a command line.

ghost use Rattle.std.specs.Prelude.{◌≡◌, IfOk};
ghost use Rattle.clap.specs.Matches.{found_of};
ghost use Rattle.clap.specs.Walk.{rows_of};
ghost use Rattle.krl_job.specs.CommandLine.{given_by};
ghost use Rattle.krl_words.specs.Options.{given_of};

use clap::ArgMatches;
use krl_job::CommandLine;
use option_table::{is_set, value_of, values_of};
use std::alloc::{AllocError, Global};

/// The values in these matches, of words in which a file is named between two uses of `-s`, or not.
pub fn given_in<'a>(
    alloc: Global,
    matches: &ArgMatches<'a>,
    is_divided: bool,
) -> Result<CommandLine<'a>, AllocError>
    ensures { IfOk result (λ given.
        given_by given ≡ given_of is_divided (rows_of (found_of matches.now))) }
{
    let files = values_of(alloc, matches, "files")?;
    Ok(CommandLine {
        list: is_set(matches, "list"),
        certificates: is_set(matches, "certificates"),
        make: is_set(matches, "make"),
        query: is_set(matches, "query"),
        update: is_set(matches, "update"),
        file: value_of(matches, "file"),
        hash: value_of(matches, "hash"),
        authority: value_of(matches, "authority"),
        version: value_of(matches, "version"),
        files,
        is_divided,
    })
}
