//! Laws about lists that are made of texts. Each function does nothing: its contract is the law.

ghost use Rattle.std.specs.Prelude.{◌≡◌, ◌<◌, ◌↔◌, ◌^◌, ◌++◌, ℕ, List, None, Ok, Some};
ghost use Rattle.std.specs.Prelude.{true};
ghost use Rattle.std.specs.List.{slice_split};
ghost use Rattle.key_text.specs.Lines.{is_newline};
ghost use Rattle.krl_entries.specs.Revocations.{Revocations};
ghost use Rattle.krl_format.specs.Entries.{entries_of};
ghost use Rattle.krl_format.specs.Krl.{SpelledSection, Spells};
ghost use Rattle.krl_format.specs.declared.header.Header.{Header};
ghost use Rattle.krl_types.specs.Entry.{Entry};
ghost use Rattle.text_entries.specs.Lines.{lines_with};
ghost use Rattle.text_entries.specs.declared.standing.Standing.{Standing};
ghost use Rattle.text_run.specs.Base.{takes_contents};
ghost use Rattle.text_run.specs.Content.{HasNote, HasSome, content_of};
ghost use Rattle.text_run.specs.Over.{MakesOver, RevokesSame, entries_asked};
ghost use Rattle.text_run.specs.declared.content.Content.TheVariants.{Entries, Notes};
ghost use Rattle.text_run.specs.declared.inputs.Inputs.{Inputs};

/// A list that is made over the contents of the old one keeps what that names: it revokes exactly
/// what the entries of the old list and those of the texts revoke.
pub fn update_keeps_the_old_list()
    ensures { (inputs : Inputs) (text bytes : List ℕ) (header : Header)
        (sections : List SpelledSection) (version : ℕ) (contents lost : Revocations)
        → takes_contents inputs.over ≡ true → version < 2 ^ 64 → inputs.date < 2 ^ 64
        → Spells text header sections
        → MakesOver inputs (Some (Some text)) bytes version contents lost
        → (made : Header) × (entries : List Entry)
        × (entries_asked inputs ≡ Ok entries)
        × RevokesSame made bytes (entries_of sections ++ entries) }
{}

/// A text without a fault has an entry exactly where its lines say one, or one that is over. If it
/// has none, it has a comment or names an authority exactly where its lines say so.
pub fn content_is_what_lines_say()
    ensures entries { (standing : Standing) (text : List ℕ) → standing.over ≡ 0
        → (lines_with standing text).fault ≡ None
        → (content_of text ≡ Entries) ↔ HasSome (lines_with standing text) }
    ensures notes { (standing : Standing) (text : List ℕ) → standing.over ≡ 0
        → (lines_with standing text).fault ≡ None
        → (HasSome (lines_with standing text) → ⊥)
        → (content_of text ≡ Notes) ↔ HasNote (slice_split is_newline text) }
{}
