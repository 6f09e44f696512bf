//! Pieces one after another.

ghost use Rattle.std.specs.Prelude.{◌++◌};

use crate::printed::Printed;
use std::alloc::AllocError;

/// A piece, and what follows it.
#[derive(Clone, Copy)]
pub struct Then<A, B> {
    pub first: A,
    pub rest: B,
}

impl<A: Printed, B: Printed> Printed for Then<A, B> {
    ghost text = { λ joined. A.text joined.first ++ B.text joined.rest };

    #[inline(always)]
    fn push_to(&self, out: &mut Vec<u8>) -> Result<(), AllocError> {
        self.first.push_to(out)?;
        self.rest.push_to(out)
    }
}

/// The pieces as one value. A literal of bytes is a piece.
#[macro_export]
macro_rules! pieces {
    ($words:literal) => {
        $crate::Words($words)
    };
    ($piece:expr) => {
        $piece
    };
    ($words:literal, $($rest:tt)+) => {
        $crate::Then { first: $crate::Words($words), rest: $crate::pieces!($($rest)+) }
    };
    ($piece:expr, $($rest:tt)+) => {
        $crate::Then { first: $piece, rest: $crate::pieces!($($rest)+) }
    };
}

/// Appends the pieces to a line, one after another.
#[macro_export]
macro_rules! put {
    ($out:expr; $($pieces:tt)+) => {
        $crate::put($out, $crate::pieces!($($pieces)+))
    };
}
