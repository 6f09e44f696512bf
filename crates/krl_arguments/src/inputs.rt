//! The options whose values are files that are read.

ghost use Rattle.std.specs.Prelude.{◌≡◌, IfOk, filter, length, map};
ghost use Rattle.std.specs.List.{flat_map};
ghost use Rattle.clap.specs.Matches.{found_of};
ghost use Rattle.clap.specs.Walk.{rows_of};
ghost use Rattle.option_table.specs.Value.{values_in};
ghost use Rattle.krl_arguments.specs.Inputs.{inputs_in, is_input, reads_twice};

use clap::ArgMatches;
use option_table::values_of;
use std::alloc::{AllocError, Global};

// The options and words of every subcommand that name files to read.
const READ_OPTIONS: [&str; 14] = [
    "list",
    "texts",
    "newer-than",
    "superset-of",
    "names",
    "keep",
    "canary",
    "files0-from",
    "sshd",
    "passwd",
    "command-output",
    "lists",
    "old",
    "new",
];

/// Returns true if standard input is named twice. The files of an audit may name it more than once.
#[tactic(auto, unfolding(crate::specs::Inputs::reads_twice))]
pub(crate) fn reads_twice(
    alloc: Global,
    name: &str,
    found: &ArgMatches<'_>,
) -> Result<bool, AllocError>
    ensures { IfOk result (λ twice. twice ≡ reads_twice name.now (rows_of (found_of found.now))) }
{
    let options = inputs_in(alloc, found, &READ_OPTIONS)?;
    let files = inputs_in(alloc, found, &["files"])?;
    Ok(options > 1 || options > 0 && files > 0 || name != "audit" && files > 1)
}

// How many values of these options are standard input.
fn inputs_in(alloc: Global, found: &ArgMatches<'_>, options: &[&str]) -> Result<usize, AllocError>
    ensures { IfOk result (λ count.
        count ≡ inputs_in (map (λ option. option.now) options.now) (rows_of (found_of found.now))) }
{
    let mut names = Vec::new(alloc);
    for option in options {
        let values = values_of(alloc, found, *option)?;
        names.extend_from_slice(values.as_slice())?;
    }
    Ok(inputs_among(names.as_slice()))
}

// How many of these names are that of standard input.
fn inputs_among(names: &[&str]) -> usize
    ensures { result ≡ length (filter (λ name. is_input name.now) names.now) }
{
    names.iter().filter(|name| **name == "-").count()
}
