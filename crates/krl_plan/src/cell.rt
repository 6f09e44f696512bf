//! A group at the front of some runs, and the least cost of a plan that begins with it.

ghost use Rattle.std.specs.Prelude.{◌≡◌, ◌⊎◌, ◌↔◌, IsTrue};
ghost use Rattle.krl_plan.specs.declared.group.Group.{Group};
ghost use Rattle.krl_plan.specs.declared.cell.Cell.{Cell};
ghost use Rattle.krl_plan.specs.Search.{IsAtOrBefore, Wins};

use crate::group::Group;

#[derive(Clone, Copy)]
pub(crate) struct Cell {
    pub(crate) cost: u128,
    pub(crate) group: Group,
}

// The cheaper of two cells; if they cost the same, the one whose group comes first.
pub(crate) fn winner(a: Cell, b: Cell) -> Cell
    ensures one { (result ≡ a) ⊎ (result ≡ b) }
    ensures first { (other : Cell) → Wins a other → Wins result other }
    ensures second { (other : Cell) → Wins b other → Wins result other }
{
    if wins(a, b) { a } else { b }
}

// Whether the first cell is chosen: it costs less, or the same and its group comes first.
fn wins(a: Cell, b: Cell) -> bool
    ensures { IsTrue result ↔ Wins a b }
{
    if a.cost == b.cost {
        is_at_or_before(a.group, b.group)
    } else {
        a.cost < b.cost
    }
}

// Whether the first of two groups with the same cost comes first: by sort, then by more runs.
fn is_at_or_before(a: Group, b: Group) -> bool
    ensures { IsTrue result ↔ IsAtOrBefore a b }
{
    let rank = a.sort.rank();
    let other = b.sort.rank();
    if rank == other {
        b.count <= a.count
    } else {
        rank < other
    }
}
