//! The line of a condition for people: which one fails, about what, and why.

ghost use Rattle.std.specs.Prelude.{◌≡◌, OnOk};
ghost use Rattle.list_conditions.specs.Text.{condition_line, counts_text, difference_text};
ghost use Rattle.list_conditions.specs.Text.{distance_text, dsa_if, dsa_text, entries_text};
ghost use Rattle.list_conditions.specs.Text.{finding_text, named_by};
ghost use Rattle.list_conditions.specs.Text.{no_date, no_version, span_text, subject_text};

use crate::condition::Condition;
use cert_listing::time_text;
use krl_audit::Counts;
use krl_openssh::Difference;
use line_pieces::{Amount, Printed, Visible, Words, put};
use plain_list::DsaLine;
use std::alloc::{AllocError, Global};

/// Why a plain list is refused whose version is compared.
pub(crate) fn no_version() -> &'static str
    ensures { result.now ≡ no_version }
{
    "a plain list has no version"
}

/// Why a plain list is refused whose age is limited.
pub(crate) fn no_date() -> &'static str
    ensures { result.now ≡ no_date }
{
    "a plain list has no date"
}

/// Makes the line of a condition about the list or the file of this name.
pub(crate) fn write_line(
    alloc: Global,
    name: &str,
    condition: Condition<'_>,
    line: &mut Vec<u8>,
) -> Result<(), AllocError>
    ensures { OnOk result (line.new.items ≡ condition_line name.now condition.entry) }
{
    let finding = Finding {
        alloc,
        name,
        condition,
    };
    let named = named_by(name, condition);
    line.clear();
    put!(line; Words(condition.word().as_bytes()), b": ", Visible(named.as_bytes(), false), b": ",
        finding, b"\n")
}

// The name with which the line begins.
fn named_by<'a>(name: &'a str, condition: Condition<'a>) -> &'a str
    ensures { result.now ≡ named_by name.now condition.entry }
{
    match condition {
        Condition::Lost(other, _) => other,
        _ => name,
    }
}

// The finding about the list or the file of this name.
#[derive(Clone, Copy)]
struct Finding<'a> {
    alloc: Global,
    name: &'a str,
    condition: Condition<'a>,
}

impl<'a> Printed for Finding<'a> {
    ghost text = { λ finding. finding_text finding.name.now finding.condition };

    fn push_to(&self, out: &mut Vec<u8>) -> Result<(), AllocError> {
        match self.condition {
            Condition::OpenSsh(difference) => put!(out; Words(why_of(difference))),
            Condition::OpenSshLines(line) => put!(out; DsaIf(line)),
            Condition::Empty(_) => put!(out; b"it revokes nobody"),
            Condition::Slow(authorities, most) => {
                put!(out; Amount(authorities, b"CA"), b", and ", most, b" at most")
            }
            Condition::Version(version, least) => put!(out; version, b" is below ", least),
            Condition::NoVersion => put!(out; Words(no_version().as_bytes())),
            Condition::Age(instant, now, _) => {
                let date = time_text(self.alloc, instant)?;
                put!(out; b"generated ", Words(&date), b", ", Distance { instant, now })
            }
            Condition::NoDate => put!(out; Words(no_date().as_bytes())),
            Condition::NothingLost(_) => Ok(()),
            Condition::Lost(_, entries) => {
                put!(out; Entries(entries), b" not in ", Visible(self.name.as_bytes(), false))
            }
            Condition::Sshd(output, found) => {
                put!(out; b"the sshd of ", Visible(output.as_bytes(), false), b" ",
                    Words(found.words().as_bytes()))
            }
            Condition::Keys(_, counts) => put!(out; Counted(counts)),
        }
    }
}

// The words of a difference, if there is one.
fn why_of(difference: Option<Difference>) -> &'static [u8]
    ensures { result.now ≡ difference_text difference }
{
    match difference {
        None => b"",
        Some(difference) => difference.words().as_bytes(),
    }
}

// A line of a plain list that OpenSSH 10 does not read.
#[derive(Clone, Copy)]
pub(crate) struct Dsa(pub(crate) DsaLine);

impl Printed for Dsa {
    ghost text = { λ dsa. dsa_text dsa.0 };

    fn push_to(&self, out: &mut Vec<u8>) -> Result<(), AllocError> {
        put!(out; b"line ", self.0.number, b" has ", Words(self.0.part.words().as_bytes()),
            b", which OpenSSH 10 does not read")
    }
}

// That line, if there is one.
#[derive(Clone, Copy)]
struct DsaIf(Option<DsaLine>);

impl Printed for DsaIf {
    ghost text = { λ dsa. dsa_if dsa.0 };

    fn push_to(&self, out: &mut Vec<u8>) -> Result<(), AllocError> {
        match self.0 {
            None => Ok(()),
            Some(line) => Dsa(line).push_to(out),
        }
    }
}

// The counts of a file.
#[derive(Clone, Copy)]
struct Counted(Counts);

impl Printed for Counted {
    ghost text = { λ counted. counts_text counted.0 };

    fn push_to(&self, out: &mut Vec<u8>) -> Result<(), AllocError> {
        put!(out; self.0.revoked, b" of ", Subject(self.0.keys, b"key"), b" revoked, ",
            Subject(self.0.unread, b"line"), b" not read")
    }
}

// A number of entries, as the subject of a sentence, with its verb.
#[derive(Clone, Copy)]
struct Entries(u64);

impl Printed for Entries {
    ghost text = { λ entries. entries_text entries.0 };

    fn push_to(&self, out: &mut Vec<u8>) -> Result<(), AllocError> {
        let noun: &[u8] = if self.0 == 1 {
            b" entry is"
        } else {
            b" entries are"
        };
        put!(out; self.0, Words(noun))
    }
}

// How far an instant is from the present one, in seconds since 1970.
#[derive(Clone, Copy)]
struct Distance {
    instant: u64,
    now: u64,
}

impl Printed for Distance {
    ghost text = { λ distance. distance_text distance.instant distance.now };

    fn push_to(&self, out: &mut Vec<u8>) -> Result<(), AllocError> {
        if self.now < self.instant {
            put!(out; Span(self.instant - self.now), b" from now")
        } else {
            put!(out; Span(self.now - self.instant), b" ago")
        }
    }
}

// A number of seconds, in the unit that suits it.
#[derive(Clone, Copy)]
struct Span(u64);

impl Printed for Span {
    ghost text = { λ span. span_text span.0 };

    fn push_to(&self, out: &mut Vec<u8>) -> Result<(), AllocError> {
        if self.0 < 120 {
            put!(out; self.0, b"s")
        } else if self.0 < 7_200 {
            put!(out; self.0 / 60, b"m")
        } else {
            put!(out; self.0 / 3_600, b"h")
        }
    }
}

// A number of things, as the subject of a sentence, with its verb.
#[derive(Clone, Copy)]
struct Subject<'a>(u64, &'a [u8]);

impl<'a> Printed for Subject<'a> {
    ghost text = { λ subject. subject_text subject.0 subject.1.now };

    fn push_to(&self, out: &mut Vec<u8>) -> Result<(), AllocError> {
        let verb: &[u8] = if self.0 == 1 { b" is" } else { b" are" };
        put!(out; Amount(self.0, self.1), Words(verb))
    }
}
