//! The counts of lines.

ghost use Rattle.std.specs.Prelude.{◌≡◌};
ghost use Rattle.krl_audit.specs.Counts.{audit_status, counted, is_key, one_more};

use audit_text::LineKind;

/// The number of keys and of lines that are not read.
#[derive(Clone, Copy)]
pub struct Counts {
    /// Keys, revoked or not.
    pub keys: u64,
    /// Keys that the list revokes.
    pub revoked: u64,
    /// Lines and files that were not read.
    pub unread: u64,
}

impl Counts {
    /// Nothing was counted.
    pub const NONE: Counts = Counts {
        keys: 0,
        revoked: 0,
        unread: 0,
    };

    /// The counts with a line of this kind.
    pub fn with(self, kind: LineKind) -> Counts
        ensures { result ≡ counted self kind }
    {
        Counts {
            keys: one_more(self.keys, is_key(kind)),
            revoked: one_more(self.revoked, kind == LineKind::Revoked),
            unread: one_more(self.unread, kind == LineKind::Unread),
        }
    }

    /// The exit status of an audit with these counts, which a fault stopped or not: 255 if it was
    /// stopped, otherwise 1 if a key is revoked, otherwise 3 if something is not read, otherwise 0.
    pub fn status(self, stopped: bool) -> u8
        ensures { result ≡ audit_status stopped self }
    {
        if stopped {
            255
        } else if self.revoked > 0 {
            1
        } else if self.unread > 0 {
            3
        } else {
            0
        }
    }
}

/// A count, and one more if it includes this line.
pub(crate) fn one_more(count: u64, is_one: bool) -> u64
    ensures { result ≡ one_more count is_one }
{
    if is_one {
        count.saturating_add(1)
    } else {
        count
    }
}

// Returns true if a line has a key.
fn is_key(kind: LineKind) -> bool
    ensures { result ≡ is_key kind }
{
    matches!(
        kind,
        LineKind::Distrusted | LineKind::Fine | LineKind::Revoked
    )
}
