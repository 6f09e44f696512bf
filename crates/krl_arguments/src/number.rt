//! The numbers that are values of options.

ghost use Rattle.std.specs.Prelude.{◌≡◌};
ghost use Rattle.clap.specs.Matches.{found_of};
ghost use Rattle.clap.specs.Walk.{rows_of};
ghost use Rattle.krl_arguments.specs.Number.{count_at, is_wrong, number_at};

use clap::ArgMatches;
use krl_job::number_of;
use option_table::value_of;

/// The first number that a reader of JSON may take for another one (RFC 8259, section 6).
pub(crate) const MOST: u64 = 9_007_199_254_740_992;

/// The value of an option, if it is given and is a number.
pub(crate) fn number_at(found: &ArgMatches<'_>, id: &str) -> Option<u64>
    ensures { result ≡ number_at id.now (rows_of (found_of found.now)) }
{
    match value_of(found, id) {
        Some(text) => number_of(text),
        None => None,
    }
}

/// The value of an option, if it is given and is a number that every reader of JSON takes exactly.
pub(crate) fn count_at(found: &ArgMatches<'_>, id: &str) -> Option<u64>
    ensures { result ≡ count_at id.now (rows_of (found_of found.now)) }
{
    match number_at(found, id) {
        Some(number) if number < MOST => Some(number),
        _ => None,
    }
}

/// Returns true if an option is given, and this is not read from its value.
pub(crate) fn is_wrong(found: &ArgMatches<'_>, id: &str, read: Option<u64>) -> bool
    ensures { result ≡ is_wrong id.now read (rows_of (found_of found.now)) }
{
    value_of(found, id).is_some() && read.is_none()
}
