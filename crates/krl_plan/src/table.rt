//! The best groups and the least costs, from the last run to the first.

ghost use Rattle.std.specs.Prelude.{List, [], ◌∷◌, ◌++◌, IfOk, OnOk};
ghost use Rattle.serial_set.specs.declared.span.Span.{Span};
ghost use Rattle.serial_set.specs.Span.{IsRuns};
ghost use Rattle.krl_plan.specs.Plan.{IsLeastPlan};

use crate::bitmaps::Bitmaps;
use crate::cell::Cell;
use crate::choice::Choice;
use crate::group::{Group, Sort};
use crate::lists::Lists;
use serial_set::Span;
use std::alloc::{AllocError, Global};

// The best groups and costs of the last runs of a set.
#[derive(Drop)]
pub(crate) struct Table {
    lists: Lists,
    bitmaps: Bitmaps,
    // The least cost of the known runs.
    least: u128,
    // The first groups of the least plans: last that of all known runs, before it that of all but
    // the first of these, and so on.
    choices: Vec<Choice>,
}

impl Table {
    ghost use Rattle.krl_plan.specs.Table.{Knows};

    // The table of no runs.
    pub(crate) fn new(alloc: Global) -> Table
        ensures { Knows result [] }
    {
        Table {
            lists: Lists::new(alloc, usize::MAX),
            bitmaps: Bitmaps::new(alloc),
            least: 0,
            choices: Vec::new(alloc),
        }
    }

    // Adds the runs before those that it knows.
    pub(crate) fn add_all(&mut self, more: &[Span]) -> Result<(), AllocError>
        requires { (runs : List Span) × (IsRuns (more.now ++ runs) × Knows self.old runs) }
        ensures { (runs : List Span) → IsRuns (more.now ++ runs) → Knows self.old runs
            → OnOk result (Knows self.new (more.now ++ runs)) }
    {
        for i in (0..more.len()).rev() {
            self.add(more[i])?;
        }
        Ok(())
    }

    // Adds the run before those that it knows.
    fn add(&mut self, run: Span) -> Result<(), AllocError>
        requires { (runs : List Span) × (IsRuns (run ∷ runs) × Knows self.old runs) }
        ensures { (runs : List Span) → IsRuns (run ∷ runs) → Knows self.old runs
            → OnOk result (Knows self.new (run ∷ runs)) }
    {
        // The indexes are counted down, whatever the number of runs.
        let at = usize::MAX - 1 - self.choices.len();
        self.lists.add(run, at, self.least)?;
        self.bitmaps.add(run, at, self.least)?;
        let group = Group {
            sort: Sort::Range,
            count: 1,
        };
        let cost = 21 + self.least;
        let listed = self.lists.best(at, Cell { cost, group });
        let best = self.bitmaps.best(run, at, listed);
        self.least = best.cost;
        self.choices.push(Choice::of(best.group))?;
        Ok(())
    }

    // The least plan of the known runs.
    pub(crate) fn plan(&self, alloc: Global) -> Result<Vec<Group>, AllocError>
        requires known { (runs : List Span) × Knows self.now runs }
        ensures { (runs : List Span) → Knows self.now runs
            → IfOk result (λ plan. IsLeastPlan runs plan.items) }
    {
        let mut plan = Vec::new(alloc);
        let mut left = self.choices.len();
        while left > 0 {
            let group = self.choices[left - 1].group();
            plan.push(group)?;
            left -= group.count as usize;
        }
        Ok(plan)
    }
}
