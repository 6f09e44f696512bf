//! Laws of the check. Each function does nothing: its contract is the law.

ghost use Rattle.std.specs.Borrow.{Bor};
ghost use Rattle.std.specs.Prelude.{◌≡◌, ℕ, Bool, false, true, List, Option, Some, Ok};
ghost use Rattle.run_output.specs.declared.done.Done.{Done as DoneOf};
ghost use Rattle.krl_arguments.specs.declared.task.Check.{Check as CheckOf};
ghost use Rattle.krl_types.specs.Entry.{Entry};
ghost use Rattle.krl_types.specs.Subject.{Subject};
ghost use Rattle.krl_entries.specs.Revocations.{Revocations};
ghost use Rattle.krl_entries.specs.Revoked.{Revoked};
ghost use Rattle.list_conditions.specs.Check.{names_nobody};
ghost use Rattle.any_list.specs.Told.{Reading};
ghost use Rattle.check_run.specs.Losses.{AreLost};
ghost use Rattle.check_run.specs.Run.{EndsCheckRun, Judged, list_fails};
ghost use Rattle.check_run.specs.Superset.{RevokesAll};
ghost use Rattle.check_run.specs.declared.limits.Loaded.{Loaded as LoadedOf};
ghost use Rattle.check_run.specs.declared.lists.Lost.{Lost as LostOf};

/// A list that lacks no name of another one revokes all that the other one revokes. A list for
/// which no condition fails does so too, where one of the conditions is that it names all that the
/// other one names. Where a run with `--superset-of` ends with status 0, the list is read and so is
/// the other one, and the list revokes all that the other one revokes, unless only the version was
/// asked for.
pub fn passed_revokes_all()
    ensures lost { (own others : List Entry) (lost : Revocations) → AreLost own others lost
        → names_nobody lost ≡ true
        → (subject : Subject) → Revoked others subject → Revoked own subject }
    ensures passed { (own others : List Entry) (list : Judged) (task : CheckOf) (lost : LostOf)
        → list.limits.lost.now ≡ Some lost → AreLost own others lost.held
        → list_fails list task ≡ false
        → (subject : Subject) → Revoked others subject → Revoked own subject }
    ensures run { (told : List Reading) (task : CheckOf) (loaded : LoadedOf)
        (before after : Option (List ℕ)) (failed : Bool) (done : DoneOf) (other : Bor (List ℕ))
        → EndsCheckRun told task loaded before after failed (Ok done) → done.status ≡ 0
        → task.print_version ≡ false → task.superset_of ≡ Some other
        → RevokesAll told task.list.now other.now }
{}
