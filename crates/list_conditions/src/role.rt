//! The condition that a list must meet for the keys of a file.

ghost use Rattle.std.specs.Prelude.{◌≡◌};
ghost use Rattle.list_conditions.specs.Role.{is_met, role_word, shown_for};

use audit_text::Format;
use krl_audit::{Counts, Shown};

/// The condition that a list must meet for the keys of a file.
#[derive(Clone, Copy, PartialEq, Eq)]
pub enum Role {
    /// None of them may be revoked.
    Keep,
    /// Each of them must be revoked.
    Canary,
}

impl Role {
    /// Returns true if a list meets the condition for a file with these counts. Returns false for a
    /// file without a key, or with a line that is not read.
    pub(crate) fn is_met(self, counts: Counts) -> bool
        ensures { result ≡ is_met self counts }
    {
        if counts.keys == 0 || counts.unread > 0 {
            return false;
        }
        match self {
            Role::Keep => counts.revoked == 0,
            Role::Canary => counts.revoked == counts.keys,
        }
    }

    /// The lines that are printed: keys that do not meet the condition, and lines that are not
    /// read.
    pub(crate) fn shown(self, form: Format) -> Shown<'static>
        ensures shown { result ≡ shown_for self form }
        ensures form { result.format ≡ form }
    {
        match self {
            Role::Keep => Shown {
                label: None,
                revoked: true,
                unread: true,
                fine: false,
                format: form,
            },
            Role::Canary => Shown {
                label: None,
                revoked: false,
                unread: true,
                fine: true,
                format: form,
            },
        }
    }

    /// The word for the condition.
    pub(crate) fn word(self) -> &'static str
        ensures { result.now ≡ role_word self }
    {
        match self {
            Role::Keep => "keep",
            Role::Canary => "canary",
        }
    }
}
