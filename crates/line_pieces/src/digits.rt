//! The digits of numbers.

ghost use Rattle.std.specs.Prelude.{◌≡◌, ◌++◌, OnOk, decimal};

use crate::printed::Printed;
use itoa::Buffer;
use std::alloc::AllocError;

/// Appends the decimal digits of a number.
#[inline(always)]
pub fn push_number(number: u64, line: &mut Vec<u8>) -> Result<(), AllocError>
    ensures { OnOk result (line.new.items ≡ line.old.items ++ decimal number) }
{
    let mut digits = Buffer::new();
    line.extend_from_slice(digits.format(number).as_bytes())
}

impl Printed for u64 {
    ghost text = { λ number. decimal number };

    #[inline(always)]
    fn push_to(&self, out: &mut Vec<u8>) -> Result<(), AllocError> {
        push_number(*self, out)
    }
}
