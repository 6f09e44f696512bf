//! The conditions that a list must meet before it is put in force.

ghost use Rattle.std.specs.Prelude.{◌≡◌};
ghost use Rattle.list_conditions.specs.Condition.{condition_word, fails, is_fresh, use_words};

use crate::role::Role;
use krl_audit::Counts;
use krl_openssh::Difference;
use plain_list::DsaLine;

// How many seconds after the present moment a list may have been made, since clocks differ.
const MOST_AHEAD: u64 = 300;

/// Which list an sshd uses.
#[derive(Clone, Copy)]
pub enum SshdUse {
    /// The list that is checked.
    This,
    /// No list.
    Nothing,
    /// Another list than the one that is checked.
    Other,
}

impl SshdUse {
    /// What the sshd does, in words.
    pub(crate) fn words(self) -> &'static str
        ensures { result.now ≡ use_words self }
    {
        match self {
            SshdUse::This => "uses this list",
            SshdUse::Nothing => "uses no list",
            SshdUse::Other => "uses another list",
        }
    }
}

/// A condition, with what was found about it. Moments are in seconds since 1970.
#[derive(Clone, Copy)]
pub enum Condition<'a> {
    /// OpenSSH also reads the list, and reads the same names: the first difference, if there is
    /// one.
    OpenSsh(Option<Difference>),
    /// OpenSSH also reads each line of a plain list: the first line with DSA, if there is one.
    OpenSshLines(Option<DsaLine>),
    /// It revokes somebody: true if it revokes nobody.
    Empty(bool),
    /// Logins stay fast, since OpenSSH searches the certificate authorities of a list one after
    /// the other: how many it has, and how many it may have.
    Slow(u64, u64),
    /// Its version is not below that of another list: both versions.
    Version(u64, u64),
    /// Two versions are compared, and this list, a plain one, has none.
    NoVersion,
    /// It was made at most so many seconds ago, and at most 5 minutes after the present moment:
    /// when it was made, the present moment, and the seconds.
    Age(u64, u64, u64),
    /// Its age is limited, and as a plain list it has no date.
    NoDate,
    /// It has all entries of the list of this name.
    NothingLost(&'a str),
    /// It must have all entries of the list of this name, and lacks so many.
    Lost(&'a str, u64),
    /// It is the list of the sshd whose output of `sshd -T` has this name: the list that the sshd
    /// uses.
    Sshd(&'a str, SshdUse),
    /// It does to the keys of a file what it must: the counts of the file.
    Keys(Role, Counts),
}

impl<'a> Condition<'a> {
    /// Returns true if the condition fails.
    pub fn fails(self) -> bool
        ensures { result ≡ fails self.entry }
    {
        match self {
            Condition::OpenSsh(difference) => difference.is_some(),
            Condition::OpenSshLines(line) => line.is_some(),
            Condition::Empty(nobody) => nobody,
            Condition::Slow(authorities, most) => authorities > most,
            Condition::Version(version, least) => version < least,
            Condition::Age(generated, now, max_age) => !is_fresh(generated, now, max_age),
            Condition::NothingLost(_) | Condition::Sshd(_, SshdUse::This) => false,
            Condition::NoVersion | Condition::NoDate | Condition::Lost(..) => true,
            Condition::Sshd(_, SshdUse::Nothing | SshdUse::Other) => true,
            Condition::Keys(role, counts) => !role.is_met(counts),
        }
    }

    /// The word for the condition.
    pub(crate) fn word(self) -> &'static str
        ensures { result.now ≡ condition_word self.entry }
    {
        match self {
            Condition::OpenSsh(_) | Condition::OpenSshLines(_) => "openssh",
            Condition::Empty(_) => "empty",
            Condition::Slow(..) => "slow",
            Condition::Version(..) | Condition::NoVersion => "version",
            Condition::Age(..) | Condition::NoDate => "age",
            Condition::NothingLost(_) | Condition::Lost(..) => "lost",
            Condition::Sshd(..) => "sshd",
            Condition::Keys(role, _) => role.word(),
        }
    }
}

// Returns true if a list was made neither too long ago nor after the present moment.
fn is_fresh(generated: u64, now: u64, max_age: u64) -> bool
    ensures { result ≡ is_fresh generated now max_age }
{
    generated.saturating_sub(now) <= MOST_AHEAD && now.saturating_sub(generated) <= max_age
}
