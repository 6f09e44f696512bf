//! The subsections of a plan.

ghost use Rattle.std.specs.Prelude.{◌≡◌, List, ◌++◌, OnOk};
ghost use Rattle.krl_plan.specs.declared.group.Group.{Group};
ghost use Rattle.krl_plan.specs.Plan.{IsLeastPlan, IsPlan};
ghost use Rattle.krl_plan.specs.Written.{plan_text};

use crate::copies::{copy_runs, drop_first};
use crate::group::Group;
use crate::group_text::put_group;
use crate::planner::least_plan;
use serial_set::Spans;
use std::alloc::{AllocError, Global};

// Appends the subsections of a plan of a set's runs, one after another.
pub(crate) fn put_plan<S: Spans>(
    alloc: Global,
    out: &mut Vec<u8>,
    set: &S,
    plan: &[Group],
) -> Result<(), AllocError>
    requires { IsPlan (S.spans set.now) plan.now }
    ensures { OnOk result (out.new.items ≡ out.old.items ++ plan_text (S.spans set.now) plan.now) }
{
    let mut runs = Vec::new(alloc);
    let mut next = Some(0);
    for group in plan {
        let count = group.count as usize;
        next = copy_runs(set, next, count, &mut runs)?;
        put_group(out, group.sort, &runs[..count])?;
        drop_first(&mut runs, count);
    }
    Ok(())
}

/// Appends the subsections of a set's least plan (PROTOCOL.krl, certificate sections). Fails only
/// if an allocation fails.
pub fn put_least_plan<S: Spans>(alloc: Global, out: &mut Vec<u8>, set: &S) -> Result<(), AllocError>
    ensures { OnOk result ((plan : List Group) × (IsLeastPlan (S.spans set.now) plan
        × (out.new.items ≡ out.old.items ++ plan_text (S.spans set.now) plan))) }
{
    let plan = least_plan(alloc, set)?;
    put_plan(alloc, out, set, &plan)?;
    Ok(())
}
