//! Text that others wrote.

ghost use Rattle.ssh_cert.specs.Escape.{escaped};

use crate::printed::Printed;
use ssh_cert::push_escaped;
use std::alloc::AllocError;

/// Text that others wrote, printed with its control bytes escaped.
#[derive(Clone, Copy)]
pub struct Escaped<'a>(pub &'a [u8]);

impl<'a> Printed for Escaped<'a> {
    ghost text = { λ text. escaped text.0.now };

    fn push_to(&self, out: &mut Vec<u8>) -> Result<(), AllocError> {
        push_escaped(out, self.0)
    }
}
