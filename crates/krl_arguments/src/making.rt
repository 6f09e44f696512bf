//! The lists that words ask to be made.

ghost use Rattle.std.specs.Prelude.{◌≡◌, IfOk};
ghost use Rattle.clap.specs.Matches.{found_of};
ghost use Rattle.clap.specs.Walk.{rows_of};
ghost use Rattle.krl_arguments.specs.Making.{if_makes, make_by, make_of, make_with};
ghost use Rattle.krl_arguments.specs.Misuse.{result_map};

use crate::misuse::Misuse;
use crate::number::{is_wrong, number_at};
use crate::task::Make;
use clap::ArgMatches;
use option_table::{is_set, value_of, values_of};
use std::alloc::{AllocError, Global};

/// The list that these matches ask for, or why they ask for none.
pub(crate) fn make_in<'a>(
    alloc: Global,
    found: &ArgMatches<'a>,
) -> Result<Result<Make<'a>, Misuse>, AllocError>
    ensures { IfOk result (λ make.
        result_map make_by make ≡ make_of (rows_of (found_of found.now))) }
{
    let Some(list) = value_of(found, "list") else {
        return Ok(Err(Misuse::Incomplete));
    };
    let make = make_with(alloc, found, list)?;
    Ok(if_makes(is_wrong(found, "version", make.version), make))
}

// The list of this name.
fn make_with<'a>(
    alloc: Global,
    found: &ArgMatches<'a>,
    list: &'a str,
) -> Result<Make<'a>, AllocError>
    ensures { IfOk result (λ make.
        make_by make ≡ make_with (rows_of (found_of found.now)) list.now) }
{
    let files = values_of(alloc, found, "files")?;
    Ok(Make {
        list,
        version: number_at(found, "version"),
        comment: value_of(found, "comment"),
        quiet: is_set(found, "quiet"),
        dry_run: is_set(found, "dry-run"),
        update: is_set(found, "update"),
        replace: is_set(found, "replace"),
        allow_empty: is_set(found, "allow-empty"),
        files,
    })
}

// The list, unless its version is no number, it is standard input, or it is to be kept and not to
// be read.
fn if_makes(wrong: bool, make: Make<'_>) -> Result<Make<'_>, Misuse>
    ensures { result_map make_by result ≡ if_makes wrong (make_by make.entry) }
{
    if wrong {
        Err(Misuse::WrongVersion)
    } else if make.list == "-" {
        Err(Misuse::InputReplaced)
    } else if make.update && make.replace {
        Err(Misuse::UpdateReplaces)
    } else {
        Ok(make)
    }
}
