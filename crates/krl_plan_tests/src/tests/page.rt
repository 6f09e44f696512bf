//! The caller of the crate's page.

ghost use Rattle.std.specs.Prelude.{◌≡◌, List, IfOk};
ghost use Rattle.krl_plan.specs.Plan.{IsLeastPlan};
ghost use Rattle.krl_plan.specs.Written.{plan_text};
ghost use Rattle.krl_plan.specs.declared.group.Group.{Group};

use krl_plan::put_least_plan;
use serial_set::Spans;
use span_sets::Held;
use std::alloc::{AllocError, Global};

/// The subsections of a list that name just the serials of a set, by its least plan.
fn subsections<S: Spans>(alloc: Global, set: &S) -> Result<Vec<u8>, AllocError>
    ensures { IfOk result (λ text. (plan : List Group) × (IsLeastPlan (S.spans set.now) plan
        × (text.items ≡ plan_text (S.spans set.now) plan))) }
{
    let mut text = Vec::new(alloc);
    put_least_plan(alloc, &mut text, set)?;
    Ok(text)
}

// The set of the serials from 3 to 9.
fn three_to_nine(alloc: Global) -> Result<Held, AllocError> {
    let mut set = Held::empty(alloc)?;
    set.add(3, 9)?;
    Ok(set)
}

#[test]
fn a_run_is_a_range_in_the_fewest_bytes(rt: HostRuntime) {
    let set = three_to_nine(rt.alloc()).expect(&rt, "there is memory");
    let text = subsections(rt.alloc(), &set).expect(&rt, "there is memory");
    // A bitmap from serial 3 on, of one byte.
    assert!(rt; text.as_slice() == b"\x22\0\0\0\x0d\0\0\0\0\0\0\0\x03\0\0\0\x01\x7f".as_slice());
}
