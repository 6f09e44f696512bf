//! Laws of logins and lists. Each function does nothing: its contract is the law.

ghost use Rattle.std.specs.Prelude.{◌≡◌, ◌↔◌, ℕ, List};
ghost use Rattle.krl_types.specs.Entry.{Entry};
ghost use Rattle.krl_types.specs.Naming.{SomeNames};
ghost use Rattle.krl_types.specs.Subject.{Subject as SubjectOf};
ghost use Rattle.krl_entries.specs.Reasons.{IsReason, OfName, name_asked};
ghost use Rattle.krl_entries.specs.Revoked.{Revoked};
ghost use Rattle.krl_entries.specs.declared.reasons.Reason.{Reason as ReasonOf};
ghost use Rattle.krl_fingerprints.specs.Printed.{PrintsTo, printed};
ghost use Rattle.login_lines.specs.Logins.{Reported};
ghost use Rattle.login_text.specs.Asked.{Fits, HaveNoSha1, asked_by};
ghost use Rattle.login_text.specs.Outcome.{IsOutcome, Outcome as OutcomeOf};

/// A login by a revoked key or certificate is answered as revoked, if no entry is a SHA-1: for each
/// key or certificate that has the fingerprints, the serial number and the key ID of the login.
pub fn revoked_logins_are_found()
    ensures { (entries : List Entry) (login : Reported) (id : List ℕ) (subject : SubjectOf)
        → Fits login id subject → HaveNoSha1 entries → Revoked entries subject
        → Revoked (printed entries) (asked_by login id) }
{}

/// A reason is given exactly if some entry names something with these fingerprints.
pub fn each_reason_has_an_entry()
    ensures { (entries : List Entry) (login : Reported) (id : List ℕ) (reason : ReasonOf)
        → IsReason (printed entries) (asked_by login id) reason
        ↔ OfName (PrintsTo (SomeNames entries)) (name_asked reason (asked_by login id)) }
{}

/// Each line has exactly one outcome.
pub fn lines_have_one_outcome()
    ensures one { (line : List ℕ) (a b : OutcomeOf) → IsOutcome line a → IsOutcome line b
        → a ≡ b }
    ensures some { (line : List ℕ) → (outcome : OutcomeOf) × IsOutcome line outcome }
{}
