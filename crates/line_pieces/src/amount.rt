//! Numbers of things, in words.

use crate::printed::Printed;
use crate::words::Words;
use crate::{pieces, put};
use std::alloc::AllocError;

/// A number, and the noun that it counts, in the singular.
#[derive(Clone, Copy)]
pub struct Amount<'a>(pub u64, pub &'a [u8]);

impl<'a> Printed for Amount<'a> {
    ghost use Rattle.line_pieces.specs.Amount.{amount_text};

    ghost text = { λ amount. amount_text amount.0 amount.1.now };

    fn push_to(&self, out: &mut Vec<u8>) -> Result<(), AllocError> {
        let plural: &[u8] = if self.0 == 1 { b"" } else { b"s" };
        put!(out; self.0, b" ", Words(self.1), Words(plural))
    }
}
