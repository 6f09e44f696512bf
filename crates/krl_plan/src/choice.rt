//! Groups in two bytes.

ghost use Rattle.std.specs.Prelude.{◌≡◌, ◌≤◌};

use crate::group::{Group, Sort};
use std::marker::Model;

// A group stored in two bytes, since a table has one for each run. Contracts see the group.
#[derive(Drop)]
pub(crate) struct Choice {
    // Four times the count, plus the rank of the sort.
    code: u16,
}

impl Model for Choice {
    ghost use Rattle.krl_plan.specs.declared.group.Group.{Group};
    ghost use Rattle.krl_plan.specs.Choice.{group_in};

    ghost Value = { Group };

    ghost view = { λ choice. group_in choice.code };
}

impl Choice {
    // The choice of a group.
    pub(crate) fn of(group: Group) -> Choice
        requires { group.count ≤ 1024 }
        ensures { result ≡ group }
    {
        Choice {
            code: 4 * group.count + u16::from(group.sort.rank()),
        }
    }

    // The group that was chosen.
    pub(crate) fn group(&self) -> Group
        ensures { result ≡ self.now }
    {
        let sort = match self.code % 4 {
            0 => Sort::Serials,
            1 => Sort::Range,
            _ => Sort::Bitmap,
        };
        Group {
            sort,
            count: self.code / 4,
        }
    }
}
