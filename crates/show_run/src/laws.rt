//! Laws of lists that are shown or compared. Each function does nothing: its contract is the law.

ghost use Rattle.std.specs.Prelude.{◌≡◌, ◌↔◌, ℕ, Bool, List, Option};
ghost use Rattle.run_faults.specs.RunFault.{RunFault as RunFaultOf};
ghost use Rattle.krl_types.specs.Entry.{Entry};
ghost use Rattle.krl_types.specs.Subject.{Subject};
ghost use Rattle.krl_entries.specs.Revoked.{Revoked};
ghost use Rattle.any_list.specs.List.{IsReadList};
ghost use Rattle.any_list.specs.Told.{Reading};
ghost use Rattle.any_list.specs.declared.list.List.{List as ListOf};
ghost use Rattle.show_run.specs.Changes.{HasChanges};
ghost use Rattle.show_run.specs.Comparison.{EndsCompared, EndsDiffRun};
ghost use Rattle.show_run.specs.SameLists.{RevokeSame};
ghost use Rattle.show_run.specs.Showing.{list_facts};
ghost use Rattle.show_run.specs.declared.changes.Changes.{Changes as ChangesOf};
ghost use Rattle.show_run.specs.declared.comparison.Comparison.{Comparison as ComparisonOf};

/// The name and the bytes of a list decide what is shown of it.
pub fn bytes_decide_what_is_shown()
    ensures { (name bytes : List ℕ) (one other : ListOf) → IsReadList name bytes one
        → IsReadList name bytes other → list_facts one ≡ list_facts other }
{}

/// The bytes of two lists decide what is printed of their comparison.
pub fn bytes_decide_the_changes()
    ensures { (old new : List ℕ) (one other : ChangesOf) → HasChanges old new one
        → HasChanges old new other → one ≡ other }
{}

/// Where the status of a comparison is 0, both lists revoke the same: no key and no certificate is
/// judged otherwise by the one than by the other.
pub fn no_change_revokes_the_same()
    ensures compared { (comparison : ComparisonOf) (old new : ListOf) (olds news : List Entry)
        (before after : Option (List ℕ)) (failed : Bool) (status : ℕ)
        (fault : Option RunFaultOf)
        → EndsCompared comparison old new olds news before after failed status fault → status ≡ 0
        → (subject : Subject) → (Revoked olds subject ↔ Revoked news subject) }
    ensures run { (told : List Reading) (comparison : ComparisonOf) (before after : Option (List ℕ))
        (failed : Bool) (status : ℕ) (fault : Option RunFaultOf)
        → EndsDiffRun told comparison before after failed status fault → status ≡ 0
        → RevokeSame told comparison.old.now comparison.new.now }
{}
