//! The interruptions of a device that are ignored.

ghost use Rattle.std.specs.Bool.{OnFalse, OnTrue};
ghost use Rattle.std.specs.Prelude.{◌≡◌, ◌+◌};

use std::io::{Error, ErrorKind};

// How many interruptions of one device are ignored, in all.
const LIMIT: u16 = 1000;

// How many more interruptions of a device may be ignored.
#[derive(Clone, Copy)]
pub(crate) struct Interruptions {
    left: u16,
}

impl Interruptions {
    // No interruption was ignored yet.
    pub(crate) fn new() -> Self
        ensures { result.left ≡ LIMIT }
    {
        Interruptions { left: LIMIT }
    }

    // Ignores an error if it is an interruption within the limit, and returns whether it did.
    pub(crate) fn pass_over(&mut self, error: &Error) -> bool
        ensures passed { OnTrue result (self.new.left + 1 ≡ self.old.left) }
        ensures other { OnFalse result (self.new ≡ self.old) }
    {
        if error.kind() != ErrorKind::Interrupted || self.left == 0 {
            return false;
        }
        self.left -= 1;
        true
    }
}
