//! Laws of the definitions. Each function does nothing: its contract is the law.

ghost use Rattle.std.specs.Prelude.{◌≡◌, ◌≤◌, ◌*◌, List, length};
ghost use Rattle.serial_set.specs.declared.span.Span.{Span};
ghost use Rattle.serial_set.specs.Span.{IsRuns};
ghost use Rattle.krl_plan.specs.declared.group.Group.{Group};
ghost use Rattle.krl_plan.specs.Plan.{IsCheapest, IsLeastPlan, IsPlan, cost};
ghost use Rattle.krl_plan.specs.Written.{plan_text};

/// A list of runs has one least plan.
pub fn one_least_plan()
    ensures { (runs : List Span) (one other : List Group) → IsLeastPlan runs one
        → IsLeastPlan runs other → one ≡ other }
{}

/// The length of a plan's subsections is its cost. A cheapest plan takes at most 21 bytes for a
/// run, and any plan at least 17 for 64 runs.
pub fn plan_has_its_bytes()
    ensures bytes { (runs : List Span) (plan : List Group) → IsRuns runs → IsPlan runs plan
        → length (plan_text runs plan) ≡ cost runs plan }
    ensures few { (runs : List Span) (plan : List Group) → IsCheapest runs plan
        → cost runs plan ≤ 21 * length runs }
    ensures many { (runs : List Span) (plan : List Group) → IsRuns runs → IsPlan runs plan
        → 17 * length runs ≤ 64 * cost runs plan }
{}
