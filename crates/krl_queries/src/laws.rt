//! Laws of the findings. Each function does nothing: its contract is the law.

ghost use Rattle.std.specs.Prelude.{◌≡◌, List, Some};
ghost use Rattle.krl_types.specs.Subject.{Subject};
ghost use Rattle.krl_types.specs.Entry.{Entry};
ghost use Rattle.krl_entries.specs.Reasons.{held_reasons, is_revoked, reasons_of, revokes};
ghost use Rattle.krl_entries.specs.Revocations.{IsOrderly, Revocations};
ghost use Rattle.krl_entries.specs.Scope.{HoldsOnlyTopics, MeansInScope};
ghost use Rattle.krl_queries.specs.Questions.{Asks, IsSmall};

/// The findings revoke a key or a certificate that was asked about exactly if the entries do.
pub fn revokes_what_was_found()
    ensures { (topics found : Revocations) (entries : List Entry) (subject : Subject)
        → MeansInScope (Some topics) found entries → Asks topics subject
        → revokes found subject ≡ is_revoked entries subject }
{}

/// The findings give the reasons of the entries for a key or a certificate that was asked about.
pub fn reasons_of_what_was_found()
    ensures { (topics found : Revocations) (entries : List Entry) (subject : Subject)
        → MeansInScope (Some topics) found entries → Asks topics subject
        → held_reasons found subject ≡ reasons_of entries subject }
{}

/// The findings are small: at most one run for each serial number among the topics, and at most the
/// bytes of the topics and of two hashes for each key.
pub fn what_is_found_is_small()
    ensures { (topics found : Revocations) → IsOrderly topics → HoldsOnlyTopics topics found
        → IsSmall topics found }
{}
