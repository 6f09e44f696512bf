//! How many lines of a file there are of each kind that is printed, and which of them are printed.

ghost use Rattle.std.specs.Prelude.{◌≡◌};
ghost use Rattle.krl_audit.specs.Tally.{is_few, tallied, within};

use crate::counts::one_more;
use crate::judge::Shown;
use audit_text::LineKind;

/// The number of lines of a file that are printed one by one, of each kind.
pub(crate) const MOST: u64 = 20;

/// The number of lines of a file so far, of each kind that is printed.
#[derive(Clone, Copy)]
pub(crate) struct Tally {
    pub(crate) revoked: u64,
    pub(crate) unread: u64,
    pub(crate) fine: u64,
}

impl Tally {
    /// No line yet.
    pub(crate) const NONE: Tally = Tally {
        revoked: 0,
        unread: 0,
        fine: 0,
    };

    /// The numbers with a line of this kind.
    pub(crate) fn with(self, kind: LineKind) -> Tally
        ensures { result ≡ tallied self kind }
    {
        Tally {
            revoked: one_more(self.revoked, kind == LineKind::Revoked),
            unread: one_more(self.unread, kind == LineKind::Unread),
            fine: one_more(self.fine, kind == LineKind::Fine),
        }
    }

    /// The findings that are printed after these lines: at most 20 of each kind.
    pub(crate) fn within(self, shown: Shown<'_>) -> Shown<'_>
        ensures { result ≡ within self shown.entry }
    {
        Shown {
            label: shown.label,
            revoked: shown.revoked && is_few(self.revoked),
            unread: shown.unread && is_few(self.unread),
            fine: shown.fine && is_few(self.fine),
            format: shown.format,
        }
    }
}

// Returns true if one more line of this kind is printed.
fn is_few(lines: u64) -> bool
    ensures { result ≡ is_few lines }
{
    lines < MOST
}
