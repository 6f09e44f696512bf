//! Laws of the checks. Each function does nothing: its contract is the law.

ghost use Rattle.std.specs.Prelude.{◌≡◌, ◌+◌, ◌<◌, ◌^◌, ◌↔◌, ℕ, List, length, Ok, Some, false};
ghost use Rattle.std.specs.Prelude.{true};
ghost use Rattle.key_text.specs.declared.marker.Marker.TheVariants as markers;
ghost use Rattle.krl_audit.specs.Audit.{file_kinds, file_lines, kind_of};
ghost use Rattle.krl_audit.specs.Counts.{all_counted};
ghost use Rattle.audit_lines.specs.Outcome.{Found, Key};
ghost use Rattle.audit_text.specs.Answer.{Answer, unexplained};
ghost use Rattle.audit_text.specs.declared.line_kind.LineKind.{LineKind};
ghost use Rattle.audit_text.specs.declared.line_kind.LineKind.TheVariants as kinds;
ghost use Rattle.krl_types.specs.Entry.{Entry};
ghost use Rattle.krl_types.specs.Subject.{Subject};
ghost use Rattle.krl_entries.specs.Revocations.{Means, Revocations};
ghost use Rattle.krl_entries.specs.declared.reasons.Reasons.{Reasons};
ghost use Rattle.list_conditions.specs.Authorities.{HasAuthorities};
ghost use Rattle.list_conditions.specs.Check.{NamesNobody, counts_of, names_nobody, none_counted};
ghost use Rattle.list_conditions.specs.Role.{AreMarked, AreMet, HasKey, SomeMarked, is_met};
ghost use Rattle.list_conditions.specs.declared.role.Role.{Role};
ghost use Rattle.list_conditions.specs.declared.role.Role.TheVariants as roles;

/// A list revokes nobody exactly if no entry names anything. Serial number 0 names no certificate.
pub fn nobody_is_named()
    ensures { (list : Revocations) (entries : List Entry) → Means list entries
        → (names_nobody list ≡ true ↔ NamesNobody entries) }
{}

/// A list holds as many authorities as its entries name, each counted once.
pub fn authorities_are_counted()
    ensures { (list : Revocations) (entries : List Entry) → Means list entries
        → HasAuthorities entries (length list.sections) }
{}

/// The counts of the lines of a file meet the condition exactly if each line may be in the file,
/// and one has a key.
pub fn counts_are_met_by_lines()
    ensures { (role : Role) (lines : List LineKind) → length lines + 1 < 2 ^ 64
        → (is_met role (all_counted none_counted lines) ≡ true ↔ AreMet role lines) }
{}

/// A key that its line marks with `@revoked` counts as a key of the file and never as revoked,
/// whatever the list revokes. So a file in which all keys are marked passes as one of keys to be
/// kept, and one with such a key does not pass as one of canaries.
pub fn marked_keys_count_as_keys()
    ensures kind { (answers : Subject → Answer) (found : Found)
        → found.marker ≡ Some markers.Revoked
        → kind_of answers (Key found) ≡ kinds.Distrusted }
    ensures keep { (reasons : Subject → Reasons) (name text : List ℕ)
        → length (file_lines (Some name) (Ok text)) + 1 < 2 ^ 64
        → AreMarked (file_lines (Some name) (Ok text))
        → HasKey (file_kinds (unexplained reasons) (Some name) (Ok text))
        → is_met roles.Keep (counts_of reasons name (Ok text)) ≡ true }
    ensures canary { (reasons : Subject → Reasons) (name text : List ℕ)
        → length (file_lines (Some name) (Ok text)) + 1 < 2 ^ 64
        → SomeMarked (file_lines (Some name) (Ok text))
        → is_met roles.Canary (counts_of reasons name (Ok text)) ≡ false }
{}
