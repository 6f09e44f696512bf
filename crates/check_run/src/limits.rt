//! The limits of a list: the version of another one, an age, the names of another one, and the list
//! that an sshd uses.

ghost use Rattle.std.specs.Prelude.{◌≡◌, IfErr, IfOk};
ghost use Rattle.any_list.specs.Told.{Tells};
ghost use Rattle.check_run.specs.Limits.{IsAgeLimit, IsClockless, unanswered_words};

use crate::host::Host;
use crate::lists::{Lost, Other};
use list_conditions::SshdUse;
use text_entries::NamesByKey;

/// What was read before the list: the names of authorities, and the output of an sshd, each if it
/// is given.
#[derive(Clone, Copy)]
pub struct Loaded<'a, 'n> {
    /// The names of authorities, by which entries are printed.
    pub names: Option<&'n NamesByKey>,
    /// The sshd whose list it must be.
    pub sshd: Option<Used<'a>>,
}

/// The list of an sshd, as to the one that is checked.
#[derive(Clone, Copy)]
pub struct Used<'a> {
    /// The name of the output of `sshd -T`.
    pub output: &'a str,
    /// Which list the sshd uses.
    pub found: SshdUse,
}

/// The largest age of a list.
#[derive(Clone, Copy)]
pub(crate) struct AgeLimit {
    /// The present moment, in seconds since 1970.
    pub(crate) now: u64,
    /// The largest number of seconds since the list was made.
    pub(crate) max_age: u64,
}

/// The list whose version must not be higher, the largest age, what the list lacks of another one,
/// and the sshd that must use it, each if there is such a limit.
#[derive(Clone, Copy)]
pub(crate) struct Limits<'a, 'l, 'n> {
    pub(crate) other: Option<Other<'a>>,
    pub(crate) age: Option<AgeLimit>,
    pub(crate) lost: &'l Option<Lost<'a, 'n>>,
    pub(crate) sshd: Option<Used<'a>>,
}

/// Why nothing is said about a list that was read.
#[derive(Clone, Copy, PartialEq, Eq)]
pub enum Unanswered {
    /// Its age is limited, and the clock cannot be read.
    Clock,
    /// Its version is wanted, and it is a plain list.
    Version,
}

impl Unanswered {
    /// The words for people.
    pub fn words(self) -> &'static [u8]
        ensures { result.now ≡ unanswered_words self }
    {
        match self {
            Unanswered::Clock => b"the clock of this host cannot be read",
            Unanswered::Version => b"a plain list has no version",
        }
    }
}

/// The limit of the age of a list, if there is one, by the clock of a host.
pub(crate) fn age_limit<H: Host>(
    host: &mut H,
    max_age: Option<u64>,
) -> Result<Option<AgeLimit>, Unanswered>
    ensures limit { IfOk result (λ limit. Tells (H.Lists.told host.old) (H.Lists.told host.new)
        (λ told. IsAgeLimit told max_age limit)) }
    ensures clock { IfErr result (λ why. Tells (H.Lists.told host.old) (H.Lists.told host.new)
        (λ told. IsClockless told max_age why)) }
{
    let Some(max_age) = max_age else {
        return Ok(None);
    };
    match host.moment() {
        Some(now) => Ok(Some(AgeLimit { now, max_age })),
        None => Err(Unanswered::Clock),
    }
}
