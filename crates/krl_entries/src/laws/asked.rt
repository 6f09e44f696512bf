//! Laws of queries and of reasons.

ghost use Rattle.std.specs.Prelude.{◌≡◌, ◌↔◌, IsTrue, List};
ghost use Rattle.krl_types.specs.Subject.{Subject};
ghost use Rattle.krl_entries.specs.Revocations.{Revocations, Means};
ghost use Rattle.krl_types.specs.Entry.{Entry};
ghost use Rattle.krl_types.specs.Naming.{Name, NamesSame, SomeNames};
ghost use Rattle.krl_entries.specs.Reasons.{IsReason, any_reason, has_reason, is_revoked};
ghost use Rattle.krl_entries.specs.Reasons.{reasons_of, revokes};
ghost use Rattle.krl_entries.specs.Revoked.{Revoked};
ghost use Rattle.krl_entries.specs.declared.reasons.Reason.{Reason as ReasonOf};

/// If revocations mean some entries, their test is true exactly for what these entries revoke.
pub fn revokes_what_is_meant()
    ensures { (r : Revocations) (entries : List Entry) (subject : Subject) → Means r entries
        → (IsTrue (revokes r subject) ↔ Revoked entries subject) }
{}

/// The test of entries is true exactly for what they revoke.
pub fn revokes_what_is_named()
    ensures { (entries : List Entry) (subject : Subject)
        → (IsTrue (is_revoked entries subject) ↔ Revoked entries subject) }
{}

/// The tests of reasons find exactly the ways in which the entries revoke.
pub fn reasons_are_ways()
    ensures { (entries : List Entry) (subject : Subject) (reason : ReasonOf)
        → (IsTrue (has_reason (reasons_of entries subject) reason)
        ↔ IsReason entries subject reason) }
{}

/// A key or a certificate is revoked exactly if there is a reason, and the test of reasons agrees
/// with the test of the entries.
pub fn revoked_for_a_reason()
    ensures reason { (entries : List Entry) (subject : Subject)
        → (Revoked entries subject ↔ ((reason : ReasonOf) × IsReason entries subject reason)) }
    ensures tested { (entries : List Entry) (subject : Subject)
        → any_reason (reasons_of entries subject) ≡ is_revoked entries subject }
{}

/// Entries that name all that others name revoke all that the others revoke. Entries that name the
/// same revoke the same.
pub fn more_names_revoke_more()
    ensures more { (entries others : List Entry)
        → ((name : Name) → SomeNames others name → SomeNames entries name)
        → (subject : Subject) → Revoked others subject → Revoked entries subject }
    ensures same { (entries others : List Entry) → NamesSame entries others
        → (subject : Subject) → (Revoked entries subject ↔ Revoked others subject) }
{}
