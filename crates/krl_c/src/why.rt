//! The reasons why a list revokes a blob, as the bits of a number.

ghost use Rattle.krl_c.specs.Why.{Explains};

use crate::asked::asked_for;
use crate::check::{compared, judge};
use crate::number::{of_blob, of_list};
use std::alloc::Global;

// The reasons why a list revokes a blob, as bits.
pub(crate) fn explain_list(alloc: Global, list: &[u8], blob: &[u8]) -> i32
    ensures { Explains list.now blob.now result }
{
    match asked_for(alloc, blob) {
        Ok(asked) => match compared(alloc, list, &asked) {
            Ok(questions) => questions.reasons(&asked).bits as i32,
            Err(refusal) => of_list(refusal),
        },
        Err(fault) => match judge(alloc, list) {
            Ok(()) => of_blob(fault),
            Err(refusal) => of_list(refusal),
        },
    }
}
