//! Why an audit ends before all is read.

ghost use Rattle.std.specs.Prelude.{◌≡◌};
ghost use Rattle.audit_run.specs.declared.stop.Stop.TheVariants.{NoMemory};

use std::alloc::AllocError;

/// Why an audit ends before all is read.
#[derive(Clone, Copy)]
pub(crate) enum Stop {
    /// A key is revoked, and no other is asked for.
    Revoked,
    /// An allocation failed.
    NoMemory,
    /// The output failed after this many bytes.
    Lost { count: u64 },
}

impl From<AllocError> for Stop {
    ghost from_gives = { λ _ stop. stop ≡ NoMemory };

    fn from(_refused: AllocError) -> Stop {
        Stop::NoMemory
    }
}
