//! Laws of audits. Each function does nothing: its contract is the law.

ghost use Rattle.std.specs.Prelude.{◌⊎◌, ℕ, List, true};
ghost use Rattle.audit_run.specs.Below.{IsFileBelow, IsSteady, SomeUnread, SomeVisit};
ghost use Rattle.audit_run.specs.Visits.{Visit};
ghost use Rattle.audit_run.specs.Walk.{IsDirectory};
ghost use Rattle.audit_run.specs.declared.search.Search.{Search};

use crate::tree::Tree;

/// In a tree that does not change, each wanted file below a directory that is walked to its end has
/// its visit, unless something is reported as unread.
pub fn each_file_below_is_visited<T: Tree>(_tree: &T)
    ensures { IsSteady (T.states _tree.now) → (search : Search) (top path : List ℕ)
        (visits : List Visit) → IsDirectory (T.states _tree.now) search true top visits
        → IsFileBelow (T.states _tree.now) search top path
        → SomeVisit path visits ⊎ SomeUnread visits }
{}
