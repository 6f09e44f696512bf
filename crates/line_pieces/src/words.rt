//! Bytes as they are.

ghost use Rattle.std.specs.Prelude.{◌≡◌};

use crate::printed::Printed;
use std::alloc::AllocError;

/// Bytes that are printed as they are.
#[derive(Clone, Copy)]
pub struct Words<'a>(pub &'a [u8]);

impl<'a> Printed for Words<'a> {
    ghost text = { λ words. words.0.now };

    #[inline(always)]
    fn push_to(&self, out: &mut Vec<u8>) -> Result<(), AllocError> {
        out.extend_from_slice(self.0)
    }
}
