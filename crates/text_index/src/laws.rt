//! Laws: the lines that are indexed by what reading adds, and what explains by the entries.

ghost use Rattle.std.specs.Prelude.{◌≡◌, ◌↔◌, ◌&&◌, [], ◌∷◌, IsTrue, List, map, not, ℕ};
ghost use Rattle.krl_entries.specs.Reasons.{IsReason, has_reason, reasons_of};
ghost use Rattle.krl_entries.specs.declared.reasons.Reason.{Reason as ReasonOf};
ghost use Rattle.krl_entries.specs.declared.reasons.Reasons.{Reasons as ReasonsOf};
ghost use Rattle.krl_types.specs.Subject.{Subject as SubjectOf};
ghost use Rattle.krl_fingerprints.specs.KeysBy.{entries_by};
ghost use Rattle.krl_fingerprints.specs.declared.keys_by.KeysBy.{KeysBy as KeysByOf};
ghost use Rattle.text_entries.specs.Lines.{lines_with};
ghost use Rattle.text_entries.specs.declared.standing.Standing.{Standing as StandingOf};
ghost use Rattle.text_index.specs.Explaining.{explains, unnamed_by};
ghost use Rattle.text_index.specs.NamingLines.{NamingLine, naming_lines};

/// The entries of the lines of a text that have one are those that reading the text adds, by blobs
/// or by fingerprints.
pub fn lines_have_what_is_read()
    ensures { (by : KeysByOf) (standing : StandingOf) (file text : List ℕ)
        → map (λ line. line.entry) (naming_lines by standing file text)
        ≡ entries_by by (lines_with standing text).entries }
{}

/// A line explains exactly if its entry gives one of the reasons.
pub fn lines_give_reasons()
    ensures { (asked : SubjectOf) (reasons : ReasonsOf) (line : NamingLine)
        → IsTrue (explains asked reasons line)
        ↔ ((reason : ReasonOf) × IsTrue (has_reason reasons reason)
        × IsReason (line.entry ∷ []) asked reason) }
{}

/// A reason is unnamed exactly if it is one of the reasons, and no entry of the lines gives it.
pub fn unnamed_reasons_are_not_given()
    ensures { (lines : List NamingLine) (asked : SubjectOf) (reasons : ReasonsOf)
        (reason : ReasonOf) → has_reason (unnamed_by lines asked reasons) reason
        ≡ (has_reason reasons reason
        && not (has_reason (reasons_of (map (λ line. line.entry) lines) asked) reason)) }
{}
