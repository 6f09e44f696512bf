//! The conditions for the list itself.

ghost use Rattle.std.specs.Prelude.{◌≡◌, false, true};
ghost use Rattle.list_conditions.specs.Check.{condition_items, names_nobody};
ghost use Rattle.list_conditions.specs.Condition.{fails};
ghost use Rattle.check_run.specs.Lists.{ChecksFormat, ChecksLines, ages_fail, ages_items};
ghost use Rattle.check_run.specs.Lists.{empty_fails, empty_items, limits_fail, limits_items};
ghost use Rattle.check_run.specs.Lists.{slow_of, sshds_fail, sshds_items, version_of};
ghost use Rattle.check_run.specs.Lists.{versions_fail, versions_items};
ghost use Rattle.check_run.specs.Losses.{lost_form, lost_items, losses_fail, losses_items};
ghost use Rattle.any_list.specs.List.{IsRead};
ghost use Rattle.check_run.specs.Run.{ChecksBy};

use crate::limits::{AgeLimit, Limits, Used};
use crate::lists::{Lost, Other, version_of};
use any_list::Given;
use audit_text::Format;
use byte_streams::Sink;
use krl_format::Stated;
use krl_openssh::first_difference;
use list_conditions::{Checker, Condition, names_nobody};
use list_text::{Counts, Form as TextForm, Side};
use plain_list::first_dsa_line;
use run_faults::{Cause, RunFault};
use show_run::show_held;
use text_entries::NamesByKey;

// How many certificate authorities a list may have by itself. With as many, a login takes sshd a
// second or two.
const MOST_AUTHORITIES: u64 = 4_000;

/// Checks that OpenSSH reads a list alike.
pub(crate) fn check_format<'a, W: Sink>(
    checker: &mut Checker<'_, '_, W>,
    given: &Given<'a>,
) -> Result<(), RunFault<'a>>
    requires { IsRead given.now }
    ensures checks { ChecksFormat checker.old.auditor.judge.shown.format given.now.list.name.now
        given.now.bytes result
        checker.old.auditor.run.printer checker.new.auditor.run.printer checker.old.refused
        checker.new.refused }
    ensures unread { checker.new.unread ≡ checker.old.unread }
    ensures judge { checker.new.auditor.judge ≡ checker.old.auditor.judge }
{
    let name = given.list.name;
    match &given.list.header {
        Some(_) => {
            let difference = first_difference(given.bytes.as_slice());
            checker.check(name, Condition::OpenSsh(difference))
        }
        None => check_lines(checker, name, given.bytes.as_slice()),
    }
}

// Checks that OpenSSH reads each line of a plain list.
fn check_lines<'a, W: Sink>(
    checker: &mut Checker<'_, '_, W>,
    name: &'a str,
    bytes: &[u8],
) -> Result<(), RunFault<'a>>
    ensures checks { ChecksLines checker.old.auditor.judge.shown.format name.now bytes.now result
        checker.old.auditor.run.printer checker.new.auditor.run.printer checker.old.refused
        checker.new.refused }
    ensures unread { checker.new.unread ≡ checker.old.unread }
    ensures judge { checker.new.auditor.judge ≡ checker.old.auditor.judge }
{
    match first_dsa_line(checker.auditor.run.alloc, bytes) {
        Ok(line) => checker.check(name, Condition::OpenSshLines(line)),
        Err(_) => Err(RunFault::whole(name, Cause::NoMemory)),
    }
}

/// Checks that a list revokes somebody, unless it may revoke nobody.
pub(crate) fn check_empty<'a, W: Sink>(
    checker: &mut Checker<'_, '_, W>,
    name: &'a str,
    allow_empty: bool,
) -> Result<(), RunFault<'a>>
    ensures { let nobody = names_nobody checker.old.auditor.judge.list.now in
        ChecksBy (λ form. empty_items form name.now nobody allow_empty)
        (empty_fails nobody allow_empty) result checker.old checker.new }
{
    if allow_empty {
        return Ok(());
    }
    let nobody = names_nobody(checker.auditor.judge.list);
    checker.check(name, Condition::Empty(nobody))
}

/// Checks that a list has at most so many certificate authorities, or at most 4,000 where no number
/// is given.
pub(crate) fn check_slow<'a, W: Sink>(
    checker: &mut Checker<'_, '_, W>,
    name: &'a str,
    max_cas: Option<u64>,
) -> Result<(), RunFault<'a>>
    ensures { let slow = slow_of checker.old.auditor.judge.list.now max_cas in
        ChecksBy (λ form. condition_items form name.now slow) (fails slow) result checker.old
        checker.new }
{
    let authorities = checker.auditor.judge.list.authorities() as u64;
    let most = max_cas.unwrap_or(MOST_AUTHORITIES);
    checker.check(name, Condition::Slow(authorities, most))
}

/// Checks the version, the age, the names and the sshd of a list by its limits.
pub(crate) fn check_limits<'a, W: Sink>(
    checker: &mut Checker<'_, '_, W>,
    name: &'a str,
    stated: Option<Stated>,
    limits: Limits<'a, '_, '_>,
) -> Result<(), RunFault<'a>>
    ensures { ChecksBy (λ form. limits_items form name.now stated limits.entry)
        (limits_fail stated limits.entry) result checker.old checker.new }
{
    check_version(checker, name, version_of(stated), limits.other)?;
    check_age(checker, name, stated, limits.age)?;
    check_lost(checker, name, limits.lost)?;
    check_sshd(checker, name, limits.sshd)
}

// Checks that the version of a list is not below that of the other one, if there is one.
fn check_version<'a, W: Sink>(
    checker: &mut Checker<'_, '_, W>,
    name: &'a str,
    version: Option<u64>,
    other: Option<Other<'a>>,
) -> Result<(), RunFault<'a>>
    ensures { ChecksBy (λ form. versions_items form name.now version other.entry)
        (versions_fail version other.entry) result checker.old checker.new }
{
    let Some(other) = other else {
        return Ok(());
    };
    match (version, other.version) {
        (Some(version), Some(least)) => checker.check(name, Condition::Version(version, least)),
        (Some(_), None) => checker.check(other.name, Condition::NoVersion),
        (None, _) => checker.check(name, Condition::NoVersion),
    }
}

// Checks that a list is neither too old nor from the future, if its age is limited.
fn check_age<'a, W: Sink>(
    checker: &mut Checker<'_, '_, W>,
    name: &'a str,
    stated: Option<Stated>,
    limit: Option<AgeLimit>,
) -> Result<(), RunFault<'a>>
    ensures { ChecksBy (λ form. ages_items form name.now stated limit) (ages_fail stated limit)
        result checker.old checker.new }
{
    let Some(AgeLimit { now, max_age }) = limit else {
        return Ok(());
    };
    match stated {
        Some(stated) => checker.check(name, Condition::Age(stated.generated, now, max_age)),
        None => checker.check(name, Condition::NoDate),
    }
}

// Checks that a list names all that another one names, if there is one.
fn check_lost<'a, W: Sink>(
    checker: &mut Checker<'_, '_, W>,
    name: &'a str,
    lost: &Option<Lost<'a, '_>>,
) -> Result<(), RunFault<'a>>
    ensures { ChecksBy (λ form. losses_items form name.now lost.now) (losses_fail lost.now)
        result checker.old checker.new }
{
    let Some(lost) = lost else {
        return Ok(());
    };
    if names_nobody(&lost.held) {
        return checker.check(name, Condition::NothingLost(lost.name));
    }
    say_lost(checker, name, lost)
}

// Checks that an sshd uses the list, if there is one that must.
fn check_sshd<'a, W: Sink>(
    checker: &mut Checker<'_, '_, W>,
    name: &'a str,
    sshd: Option<Used<'a>>,
) -> Result<(), RunFault<'a>>
    ensures { ChecksBy (λ form. sshds_items form name.now sshd.entry) (sshds_fail sshd.entry)
        result checker.old checker.new }
{
    let Some(used) = sshd else {
        return Ok(());
    };
    checker.check(name, Condition::Sshd(used.output, used.found))
}

// Prints what a list lacks, and refuses it.
fn say_lost<'a, W: Sink>(
    checker: &mut Checker<'_, '_, W>,
    name: &'a str,
    lost: &Lost<'a, '_>,
) -> Result<(), RunFault<'a>>
    ensures { ChecksBy (λ form. lost_items form name.now lost.now) true result checker.old
        checker.new }
{
    let form = lost_form(checker.auditor.judge.shown.format, lost.names);
    let mut counts = Counts::NONE;
    show_held(&mut checker.auditor.run, &mut counts, form, &lost.held)?;
    checker.check(name, Condition::Lost(lost.name, counts.entries))
}

// The form of the lines of what is lost.
fn lost_form(form: Format, names: Option<&NamesByKey>) -> TextForm<'_>
    ensures { result ≡ lost_form form names.entry }
{
    match form {
        Format::Text | Format::Colour => TextForm::Change(Side::Removed, names),
        Format::Json => TextForm::JsonChange(Side::Removed, names),
    }
}
