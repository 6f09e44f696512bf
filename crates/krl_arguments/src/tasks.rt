//! The task of words that can be parsed.

ghost use Rattle.std.specs.Prelude.{◌≡◌, filter, IfOk, length};
ghost use Rattle.clap.specs.Matches.{found_of};
ghost use Rattle.clap.specs.Simple.{subcommand_rows_of};
ghost use Rattle.clap.specs.Walk.{rows_of};
ghost use Rattle.krl_arguments.specs.Misuse.{result_map};
ghost use Rattle.krl_arguments.specs.Task.{audit_by, audit_of, audit_with, check_by, check_of};
ghost use Rattle.krl_arguments.specs.Task.{check_with, diff_by, diff_of, has_only_version, if_any};
ghost use Rattle.krl_arguments.specs.Task.{if_checks, if_list, if_names, if_searches, if_sshd};
ghost use Rattle.krl_arguments.specs.Task.{is_no_name};
ghost use Rattle.krl_arguments.specs.Task.{logins_by, logins_of, logins_with, max_age_of};
ghost use Rattle.krl_arguments.specs.Task.{named_task, reads_list_alone, show_by, show_with};
ghost use Rattle.krl_arguments.specs.Task.{task_by, task_in};

use crate::duration::duration_of;
use crate::inputs::reads_twice;
use crate::making::make_in;
use crate::misuse::Misuse;
use crate::number::{count_at, is_wrong};
use crate::task::{Audit, Check, Diff, Logins, Show, Task};
use clap::ArgMatches;
use option_table::{is_set, value_of, values_of};
use std::alloc::{AllocError, Global};

/// The task of these matches, or why they ask for none.
pub(crate) fn task_in<'a>(
    alloc: Global,
    matches: &ArgMatches<'a>,
) -> Result<Result<Task<'a>, Misuse>, AllocError>
    ensures { IfOk result (λ task.
        result_map task_by task ≡ task_in (subcommand_rows_of matches.now)) }
{
    let Some((name, found)) = matches.subcommand() else {
        return Ok(Err(Misuse::Incomplete));
    };
    if reads_twice(alloc, name, found)? {
        return Ok(Err(Misuse::TwoInputs));
    }
    named_task(alloc, name, found)
}

// The task of a subcommand with this name.
fn named_task<'a>(
    alloc: Global,
    name: &str,
    found: &ArgMatches<'a>,
) -> Result<Result<Task<'a>, Misuse>, AllocError>
    ensures { IfOk result (λ task.
        result_map task_by task ≡ named_task name.now (rows_of (found_of found.now))) }
{
    if name == "audit" {
        return Ok(audit_in(alloc, found)?.map(Task::Audit));
    }
    if name == "logins" {
        return Ok(logins_in(alloc, found)?.map(Task::Logins));
    }
    if name == "check" {
        return Ok(check_in(alloc, found)?.map(Task::Check));
    }
    if name == "show" {
        return Ok(Ok(Task::Show(show_with(alloc, found)?)));
    }
    if name == "make" {
        return Ok(make_in(alloc, found)?.map(Task::Make));
    }
    if name == "diff" {
        return Ok(diff_in(alloc, found)?.map(Task::Diff));
    }
    Ok(Err(Misuse::Incomplete))
}

// The audit of these matches.
fn audit_in<'a>(
    alloc: Global,
    found: &ArgMatches<'a>,
) -> Result<Result<Audit<'a>, Misuse>, AllocError>
    ensures { IfOk result (λ audit.
        result_map audit_by audit ≡ audit_of (rows_of (found_of found.now))) }
{
    Ok(if_list(audit_with(alloc, found)?))
}

// The values of an audit.
fn audit_with<'a>(alloc: Global, found: &ArgMatches<'a>) -> Result<Audit<'a>, AllocError>
    ensures { IfOk result (λ audit.
        audit_by audit ≡ audit_with (rows_of (found_of found.now))) }
{
    let texts = values_of(alloc, found, "texts")?;
    let canary = values_of(alloc, found, "canary")?;
    let exclude = values_of(alloc, found, "exclude")?;
    let sshd = values_of(alloc, found, "sshd")?;
    let command_output = values_of(alloc, found, "command-output")?;
    let files = values_of(alloc, found, "files")?;
    Ok(Audit {
        list: value_of(found, "list"),
        texts,
        all: is_set(found, "fine"),
        every_file: is_set(found, "all"),
        scan: is_set(found, "scan"),
        quiet: is_set(found, "quiet"),
        json: is_set(found, "json"),
        label: value_of(found, "label"),
        one_file_system: is_set(found, "one-file-system"),
        canary,
        exclude,
        names_from: value_of(found, "files0-from"),
        sshd,
        passwd: value_of(found, "passwd"),
        command_output,
        files,
    })
}

// The audit, if a list, a text or an output of `sshd -T` is given.
fn if_list(audit: Audit<'_>) -> Result<Audit<'_>, Misuse>
    ensures { result_map audit_by result ≡ if_list (audit_by audit.entry) }
{
    if audit.list.is_none() && audit.texts.is_empty() && audit.sshd.is_empty() {
        Err(Misuse::NoList)
    } else {
        if_names(audit)
    }
}

// The audit, unless something that it excludes is no name.
fn if_names(audit: Audit<'_>) -> Result<Audit<'_>, Misuse>
    ensures { result_map audit_by result ≡ if_names (audit_by audit.entry) }
{
    if no_names_among(audit.exclude.as_slice()) > 0 {
        Err(Misuse::ExcludesPath)
    } else {
        if_sshd(audit)
    }
}

// The audit, unless users or outputs of a command are given, and no output of `sshd -T`.
fn if_sshd(audit: Audit<'_>) -> Result<Audit<'_>, Misuse>
    ensures { result_map audit_by result ≡ if_sshd (audit_by audit.entry) }
{
    if audit.sshd.is_empty() && (audit.passwd.is_some() || !audit.command_output.is_empty()) {
        Err(Misuse::WithoutSshd)
    } else {
        if_any(audit)
    }
}

// The audit, if a file, a directory, a file of names or an output of `sshd -T` is given.
fn if_any(audit: Audit<'_>) -> Result<Audit<'_>, Misuse>
    ensures { result_map audit_by result ≡ if_any (audit_by audit.entry) }
{
    if audit.names_from.is_none() && audit.files.is_empty() && audit.sshd.is_empty() {
        Err(Misuse::NothingToAudit)
    } else {
        Ok(audit)
    }
}

// How many of these are no name of an entry of a directory.
fn no_names_among(names: &[&str]) -> usize
    ensures { result ≡ length (filter (λ name. is_no_name name.now) names.now) }
{
    names.iter().filter(|name| is_no_name(**name)).count()
}

// Whether no entry of a directory has this name.
fn is_no_name(name: &str) -> bool
    ensures { result ≡ is_no_name name.now }
{
    name.as_bytes().contains(&b'/') || name == "" || name == "." || name == ".."
}

// The search for logins of these matches.
fn logins_in<'a>(
    alloc: Global,
    found: &ArgMatches<'a>,
) -> Result<Result<Logins<'a>, Misuse>, AllocError>
    ensures { IfOk result (λ logins.
        result_map logins_by logins ≡ logins_of (rows_of (found_of found.now))) }
{
    Ok(if_searches(logins_with(alloc, found)?))
}

// The values of a search for logins.
fn logins_with<'a>(alloc: Global, found: &ArgMatches<'a>) -> Result<Logins<'a>, AllocError>
    ensures { IfOk result (λ logins.
        logins_by logins ≡ logins_with (rows_of (found_of found.now))) }
{
    let texts = values_of(alloc, found, "texts")?;
    let files = values_of(alloc, found, "files")?;
    Ok(Logins {
        list: value_of(found, "list"),
        texts,
        all: is_set(found, "fine"),
        quiet: is_set(found, "quiet"),
        json: is_set(found, "json"),
        files,
    })
}

// The search for logins, if a list or a text and a log are given.
fn if_searches(logins: Logins<'_>) -> Result<Logins<'_>, Misuse>
    ensures { result_map logins_by result ≡ if_searches (logins_by logins.entry) }
{
    if logins.list.is_none() && logins.texts.is_empty() {
        Err(Misuse::NoList)
    } else if logins.files.is_empty() {
        Err(Misuse::NoLog)
    } else {
        Ok(logins)
    }
}

// The check of these matches.
fn check_in<'a>(
    alloc: Global,
    found: &ArgMatches<'a>,
) -> Result<Result<Check<'a>, Misuse>, AllocError>
    ensures { IfOk result (λ check.
        result_map check_by check ≡ check_of (rows_of (found_of found.now))) }
{
    match value_of(found, "list") {
        Some(list) => Ok(if_checks(found, check_with(alloc, found, list)?)),
        None => Ok(Err(Misuse::Incomplete)),
    }
}

// The check of this list.
fn check_with<'a>(
    alloc: Global,
    found: &ArgMatches<'a>,
    list: &'a str,
) -> Result<Check<'a>, AllocError>
    ensures { IfOk result (λ check.
        check_by check ≡ check_with (rows_of (found_of found.now)) list.now) }
{
    let keep = values_of(alloc, found, "keep")?;
    let canary = values_of(alloc, found, "canary")?;
    let names = values_of(alloc, found, "names")?;
    Ok(Check {
        list,
        newer_than: value_of(found, "newer-than"),
        superset_of: value_of(found, "superset-of"),
        max_age: max_age_of(found),
        max_cas: count_at(found, "max-cas"),
        sshd: value_of(found, "sshd"),
        keep,
        canary,
        allow_empty: is_set(found, "allow-empty"),
        json: is_set(found, "json"),
        names,
        print_version: is_set(found, "print-version"),
    })
}

// The seconds of `--max-age`, if it is given and is a duration.
fn max_age_of(found: &ArgMatches<'_>) -> Option<u64>
    ensures { result ≡ max_age_of (rows_of (found_of found.now)) }
{
    match value_of(found, "max-age") {
        Some(text) => duration_of(text),
        None => None,
    }
}

// The check, unless its age is no duration, its number of CAs is no number, or its version is
// requested together with a condition.
fn if_checks<'a>(found: &ArgMatches<'_>, check: Check<'a>) -> Result<Check<'a>, Misuse>
    ensures { result_map check_by result
        ≡ if_checks (rows_of (found_of found.now)) (check_by check.entry) }
{
    if is_wrong(found, "max-age", check.max_age) {
        Err(Misuse::WrongAge)
    } else if is_wrong(found, "max-cas", check.max_cas) {
        Err(Misuse::WrongMost)
    } else if check.print_version && !has_only_version(&check) {
        Err(Misuse::VersionAlone)
    } else {
        Ok(check)
    }
}

// Returns true if there is neither a condition nor a form for them.
fn has_only_version(check: &Check<'_>) -> bool
    ensures { result ≡ has_only_version (check_by check.now) }
{
    reads_list_alone(check)
        && check.max_age.is_none()
        && check.max_cas.is_none()
        && !check.allow_empty
        && !check.json
}

// Returns true if no file is read but the list.
fn reads_list_alone(check: &Check<'_>) -> bool
    ensures { result ≡ reads_list_alone (check_by check.now) }
{
    check.newer_than.is_none()
        && check.superset_of.is_none()
        && check.sshd.is_none()
        && check.keep.is_empty()
        && check.canary.is_empty()
        && check.names.is_empty()
}

// The lists of these matches, and how they are shown.
fn show_with<'a>(alloc: Global, found: &ArgMatches<'a>) -> Result<Show<'a>, AllocError>
    ensures { IfOk result (λ show. show_by show ≡ show_with (rows_of (found_of found.now))) }
{
    let lists = values_of(alloc, found, "lists")?;
    let names = values_of(alloc, found, "names")?;
    Ok(Show {
        lists,
        json: is_set(found, "json"),
        no_name: is_set(found, "no-name"),
        names,
    })
}

// The lists that are compared.
fn diff_in<'a>(
    alloc: Global,
    found: &ArgMatches<'a>,
) -> Result<Result<Diff<'a>, Misuse>, AllocError>
    ensures { IfOk result (λ diff.
        result_map diff_by diff ≡ diff_of (rows_of (found_of found.now))) }
{
    let names = values_of(alloc, found, "names")?;
    match (value_of(found, "old"), value_of(found, "new")) {
        (Some(old), Some(new)) => Ok(Ok(Diff {
            old,
            new,
            json: is_set(found, "json"),
            names,
        })),
        _ => Ok(Err(Misuse::Incomplete)),
    }
}
