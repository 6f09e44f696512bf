//! What one list names and another does not.

use crate::tests::answered::answered;
use crate::tests::holding::{held, one_of_each, size};
use list_diff::difference;
use std::alloc::AllocError;
use std::test::Fail;

#[test]
fn a_difference(rt: HostRuntime) -> Result<(), Fail> {
    let many = held(&rt).ok_or("a second failure")?;
    let Some(few) = one_of_each(&rt) else {
        return Ok(());
    };
    let Some(lost) = answered(&rt, difference(rt.alloc(), &few, &many), AllocError) else {
        return Ok(());
    };
    assert!(rt; size(&lost) == 1000 && lost.authorities() == 201);
    Ok(())
}
