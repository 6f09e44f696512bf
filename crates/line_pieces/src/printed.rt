//! What can be printed.

ghost use Rattle.std.specs.Prelude.{◌≡◌, ◌++◌, ℕ, List, OnOk};

use std::alloc::AllocError;

/// A value that has bytes to print. Unlike those of `Display`, they need not be UTF-8, and nothing
/// but an allocation can fail.
pub trait Printed {
    ghost text: { Self → List ℕ };

    /// Appends the bytes.
    fn push_to(&self, out: &mut Vec<u8>) -> Result<(), AllocError>
        ensures { OnOk result (out.new.items ≡ out.old.items ++ text self.now) };
}

/// Appends what is printed of the value. `put!` takes pieces.
#[inline(always)]
pub fn put<T: Printed + Drop>(out: &mut Vec<u8>, value: T) -> Result<(), AllocError>
    ensures { OnOk result (out.new.items ≡ out.old.items ++ T.text value) }
{
    value.push_to(out)
}
