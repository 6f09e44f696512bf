//! Laws of the texts of lists. Each function does nothing: its contract is the law.

ghost use Rattle.std.specs.Prelude.{◌≡◌, ◌≤◌, ℕ, Bool, List, [], ◌∷◌, ◌++◌, map, All};
ghost use Rattle.std.specs.Prelude.{IsPermutation};
ghost use Rattle.std.specs.Prelude.{Option, None, Some, Ok, false, true};
ghost use Rattle.std.specs.Borrow.{Bor};
ghost use Rattle.std.specs.Io.KnownBytes.{Appends};
ghost use Rattle.std.specs.List.{slice_split};
ghost use Rattle.key_text.specs.Lines.{is_newline};
ghost use Rattle.krl_spec.specs.Blanks.{bare_line};
ghost use Rattle.krl_spec.specs.Directive.{order as spec_order, order_in as spec_order_in};
ghost use Rattle.krl_spec.specs.Entries.{line_entry, order_entry};
ghost use Rattle.krl_spec.specs.declared.directive.Directive.{Directive};
ghost use Rattle.text_entries.specs.Day.{has_day_in_comment, until_in};
ghost use Rattle.text_entries.specs.Lines.{lines_of, lines_with};
ghost use Rattle.text_entries.specs.declared.standing.Standing.{Standing};
ghost use Rattle.text_entries.specs.declared.text_fault.TextFault.{TextFault};
ghost use Rattle.krl_entries.specs.Canonical.{entries_in};
ghost use Rattle.krl_entries.specs.Revocations.{Means, Revocations, nothing};
ghost use Rattle.list_text.specs.Facts.{Fact};
ghost use Rattle.list_text.specs.Forms.{names_in};
ghost use Rattle.list_text.specs.Text.{fact_line, no_names, text_of};
ghost use Rattle.text_entries.specs.AuthorityNames.{NameOfKey, NamedKeys, name_of};
ghost use Rattle.text_entries.specs.Says.{first_standing, line_says};
ghost use Rattle.text_entries.specs.TextCause.{no_memory};
ghost use Rattle.text_entries.specs.Word.{order_in};
ghost use Rattle.text_laws.specs.AnyOrder.{IsFree};
ghost use Rattle.text_laws.specs.FactLines.{FitsUnder, IsLineOf, fact_says};
ghost use Rattle.krl_types.specs.Entry.{Entry};
ghost use Rattle.krl_types.specs.Naming.{NamesSame};
ghost use Rattle.plain_list.specs.Any.{Names};
ghost use Rattle.ssh_wire.specs.Wire.{IsBytes};
ghost use Rattle.text_laws.specs.ReadBack.{CanBeShown, HasNoZeroIds, IsReadAs};
ghost use Rattle.text_laws.specs.ReadBack.{IsReadInto, IsStored, Shown};
ghost use Rattle.text_laws.specs.ReadBack.{StopsWith, entries_of_lists, text_of_lists};
ghost use Rattle.text_laws.specs.SpecLines.{IsBareAlike, IsReadAlike, bare_says, spec_says};
ghost use Rattle.text_laws.specs.Joined.{AreWholeLines, LacksNoAuthority, later_by, lines_in};
ghost use Rattle.text_laws.specs.Joined.{behind};
ghost use Rattle.text_laws.specs.Days.{MayEnd, StandsSame, on_day};
ghost use Rattle.krl_writer.specs.KrlText.{IsKrlText};
ghost use Rattle.list_text.specs.declared.form.Form.TheVariants.{Text as AsText};
ghost use Rattle.run_faults.specs.RunFault.{RunFault as RunFaultOf};
ghost use Rattle.run_output.specs.Run.{outcome_of};
ghost use Rattle.show_run.specs.Run.{EndsShowRun, EndsShown, run_items};
ghost use Rattle.any_list.specs.Told.{Reading};
ghost use Rattle.any_list.specs.declared.list.List.{List as ListOf};
ghost use Rattle.text_laws.specs.MadeLists.{IsMergedOf, only_text};
ghost use Rattle.text_laws.specs.Names.{AreDeclared, AreNames};
ghost use Rattle.text_laws.specs.Printed.{AreMerged, HaveNoZeroIds, IsRead, shown_of};
ghost use Rattle.text_run.specs.Making.{Makes, Text as TextOf, TextEntries, Wanted as WantedOf};
ghost use Rattle.text_run.specs.Making.{texts_from};

use plain_list::laws::line_read_as_spelled;

/// The entries of a text and then another are those of both, whatever authority is current between
/// them, and a fault of the second is at its line of the whole. The second knows the names that the
/// first gives to authorities. A text that is read without a fault lacks no authority. Nothing is
/// read after a fault of the first.
pub fn texts_join()
    ensures entries { (standing : Standing) (front back : List ℕ) → AreWholeLines front
        → (lines_with standing front).fault ≡ None
        → LacksNoAuthority (behind standing front) back
        → (lines_with standing (front ++ back)).entries
        ≡ (lines_with standing front).entries
        ++ (lines_with (behind standing front) back).entries }
    ensures fault { (standing : Standing) (front back : List ℕ) → AreWholeLines front
        → (lines_with standing front).fault ≡ None
        → LacksNoAuthority (behind standing front) back
        → (lines_with standing (front ++ back)).fault
        ≡ later_by (lines_in front) (lines_with (behind standing front) back).fault }
    ensures stops { (standing : Standing) (front back : List ℕ) (fault : TextFault)
        → AreWholeLines front → (lines_with standing front).fault ≡ Some fault
        → lines_with standing (front ++ back) ≡ lines_with standing front }
{}

/// Lines that have the names of their authorities, or need none, name the same in any order below
/// the lines that give these names.
pub fn lines_stand_in_any_order()
    ensures faultless { (standing : Standing) (text other : List ℕ)
        → IsPermutation (slice_split is_newline text) (slice_split is_newline other)
        → All (IsFree standing) (slice_split is_newline text)
        → ((lines_with standing text).fault ≡ None)
        × ((lines_with standing other).fault ≡ None) }
    ensures same { (standing : Standing) (text other : List ℕ)
        → IsPermutation (slice_split is_newline text) (slice_split is_newline other)
        → All (IsFree standing) (slice_split is_newline text)
        → NamesSame (lines_with standing text).entries (lines_with standing other).entries }
{}

/// The day decides nothing but whether a line with a last day names. A text has the same fault on
/// each day, and the same stands behind it but for the day, and how many lines are over. A line
/// names on a day at most what it names on an earlier one, and a line without a last day names the
/// same on each.
pub fn day_decides_nothing_else()
    ensures fault { (standing : Standing) (today : ℕ) (text : List ℕ)
        → (lines_with (on_day today standing) text).fault ≡ (lines_with standing text).fault }
    ensures stands { (standing : Standing) (today : ℕ) (text : List ℕ)
        → StandsSame (lines_with (on_day today standing) text).standing
        (lines_with standing text).standing }
    ensures endless { (standing : Standing) (today : ℕ) (line : List ℕ)
        → until_in (bare_line line) ≡ None
        → line_says (on_day today standing) line ≡ line_says standing line }
    ensures ends { (standing : Standing) (today : ℕ) (line : List ℕ) → standing.today ≤ today
        → MayEnd (line_says standing line) (line_says (on_day today standing) line) }
{}

/// A line of a specification file names the same in a text, under the same authority: one with a
/// directive, but for a serial number with a leading zero, a key ID that is cut short, has a
/// control character or looks like something else (it begins as a key, is between quotes, looks
/// like several, or has `until` and a date), a SHA-1 and a key with anything before it; and one
/// without a word of texts that is empty or begins with the type name of a key, but for a
/// certificate that is named by a key ID with a zero byte. No comment of these lines has a last
/// day.
pub fn spec_lines_say_the_same()
    ensures directives { (standing : Standing) (line given : List ℕ) (directive : Directive)
        → spec_order_in (bare_line line) ≡ Some (spec_order given directive)
        → IsReadAlike line directive given → has_day_in_comment line ≡ false
        → line_says standing line
        ≡ spec_says directive (order_entry standing.current directive given) }
    ensures keys { (standing : Standing) (line : List ℕ)
        → order_in (bare_line line) ≡ None → IsBareAlike (bare_line line)
        → has_day_in_comment line ≡ false
        → line_says standing line ≡ bare_says (line_entry standing.current line) }
{}

/// The names that are known behind texts can be printed: a line can give each of them to its key,
/// and no two keys have the same one. Before the first text there are none, and texts that are read
/// where such names are known leave such names.
pub fn names_that_texts_give()
    ensures none { AreNames no_names }
    ensures first { (today : ℕ) → AreDeclared (first_standing today).names }
    ensures kept { (standing : Standing) (text : List ℕ) → AreDeclared standing.names
        → AreDeclared (behind standing text).names }
    ensures texts { (standing : Standing) (texts : List TextOf) (read : TextEntries)
        → AreDeclared standing.names → texts_from standing texts ≡ Ok read
        → AreDeclared read.standing.names }
    ensures names { (known : NamedKeys) (names : NameOfKey) → AreDeclared known
        → ((key : List ℕ) → names key ≡ name_of known key) → AreNames names }
{}

/// The text of a fact is one line, and reading it gives the fact: the authority or its name, or the
/// entry under the current authority or the one that has the name, or nothing for the comment about
/// a list.
pub fn fact_reads_back()
    ensures { (standing : Standing) (names : NameOfKey) (fact : Fact)
        → FitsUnder standing names fact
        → IsLineOf standing (fact_line names fact) (fact_says names fact) }
{}

/// The text of what is held is read as its entries, in their order: one for each interval of serial
/// numbers, each key ID, each key and each hash. Reading it into an empty store holds exactly what
/// was held, and can stop only because an allocation fails. This holds for any names of authorities
/// that can be printed, and for none.
pub fn text_reads_back()
    ensures read { (names : NameOfKey) (r : Revocations) → AreNames names → IsStored r
        → IsReadAs (text_of names r) (entries_in r) }
    ensures means { (names : NameOfKey) (r : Revocations) (today : ℕ) → AreNames names
        → IsStored r → Means r (lines_of today (text_of names r)).entries }
    ensures same { (names : NameOfKey) (r held : Revocations) → AreNames names → IsStored r
        → IsReadInto (text_of names r) nothing held → held ≡ r }
    ensures stops { (names : NameOfKey) (r old new : Revocations) (fault : TextFault)
        → AreNames names → IsStored r → StopsWith (text_of names r) fault old new
        → fault.cause ≡ no_memory }
{}

/// The texts of lists, one after the other and each with the comment about its list, are read as
/// the entries of all lists.
pub fn shown_lists_read_back()
    ensures { (names : NameOfKey) (lists : List Shown) → AreNames names → All CanBeShown lists
        → IsReadAs (text_of_lists names lists) (entries_of_lists lists) }
{}

/// Each list that is read from bytes can be shown, if no key ID in it has a zero byte. Its text
/// then has no fault and names exactly what the list names.
pub fn shown_list_names_the_same()
    ensures shown { (list : Shown) (bytes : List ℕ) (entries : List Entry) → IsBytes bytes
        → Names bytes list.header entries → Means list.contents entries
        → HasNoZeroIds list.contents → CanBeShown list }
    ensures names { (names : NameOfKey) (list : Shown) (bytes : List ℕ) (entries : List Entry)
        (today : ℕ) → AreNames names → IsBytes bytes → Names bytes list.header entries
        → Means list.contents entries → HasNoZeroIds list.contents
        → ((lines_of today (text_of_lists names (list ∷ []))).fault ≡ None)
        × NamesSame entries (lines_of today (text_of_lists names (list ∷ []))).entries }
{
    line_read_as_spelled();
}

/// A list that is made of the texts of lists names exactly what these lists name. Made of the text
/// of one list, it has the wanted header and the same contents, so both have the same lines.
pub fn shown_lists_are_made_again()
    ensures merged { (names : NameOfKey) (lists : List Shown) (wanted : WantedOf)
        (is_file : Bool) (name bytes : List ℕ) (contents : Revocations) → AreNames names
        → All CanBeShown lists
        → Makes wanted nothing (only_text is_file name (text_of_lists names lists)) bytes contents
        → IsMergedOf lists wanted.header bytes }
    ensures same { (names : NameOfKey) (list : Shown) (wanted : WantedOf) (is_file : Bool)
        (name bytes : List ℕ) (contents : Revocations) → AreNames names → CanBeShown list
        → Makes wanted nothing (only_text is_file name (text_of_lists names (list ∷ []))) bytes
        contents → IsKrlText wanted.header list.contents bytes }
{}

/// The text that a run prints of lists is the texts of these lists, one after the other. All of it
/// is printed if the status is 0.
pub fn printed_text_is_text_of_lists()
    ensures items { (names : Option (Bor NamedKeys)) (lists : List ListOf)
        → (outcome_of (run_items (AsText names) lists)).text
        ≡ text_of_lists (names_in names) (map shown_of lists) }
    ensures taken { (names : Option (Bor NamedKeys)) (lists : List ListOf)
        (before after : Option (List ℕ)) (failed : Bool) (fault : Option RunFaultOf)
        → EndsShown (AsText names) lists before after failed 0 fault
        → Appends before after (text_of_lists (names_in names) (map shown_of lists)) }
{}

/// A list that is made of what a run printed of lists names exactly what these lists name. Made of
/// what was printed of one list, it has the wanted header and the same contents. No list is made of
/// an empty text, unless the list may be empty.
pub fn printed_lists_are_made_again()
    ensures merged { (names : Option (Bor NamedKeys)) (lists : List ListOf) (wanted : WantedOf)
        (is_file : Bool) (text name bytes : List ℕ) (failed : Bool) (fault : Option RunFaultOf)
        (contents : Revocations) → AreNames (names_in names) → All IsRead lists
        → EndsShown (AsText names) lists (Some []) (Some text) failed 0 fault
        → Makes wanted nothing (only_text is_file name text) bytes contents
        → IsMergedOf (map shown_of lists) wanted.header bytes }
    ensures same { (names : Option (Bor NamedKeys)) (given : ListOf) (wanted : WantedOf)
        (is_file : Bool) (text name bytes : List ℕ) (failed : Bool) (fault : Option RunFaultOf)
        (contents : Revocations) → AreNames (names_in names) → IsRead given
        → EndsShown (AsText names) (given ∷ []) (Some []) (Some text) failed 0 fault
        → Makes wanted nothing (only_text is_file name text) bytes contents
        → IsKrlText wanted.header given.revocations bytes }
    ensures none { (wanted : WantedOf) (is_file : Bool) (name bytes : List ℕ)
        (contents : Revocations)
        → Makes wanted nothing (only_text is_file name []) bytes contents
        → wanted.allow_empty ≡ true }
{
    line_read_as_spelled();
}

/// A list that is made of what a whole run printed, with status 0, names exactly what the lists of
/// the run name, if no key ID in them has a zero byte.
pub fn shown_run_is_made_again()
    ensures { (told : List Reading) (files : List (Bor (List ℕ)))
        (names : Option (Bor NamedKeys)) (wanted : WantedOf) (is_file : Bool)
        (text name bytes : List ℕ) (failed : Bool) (fault : Option RunFaultOf)
        (contents : Revocations) → AreNames (names_in names) → HaveNoZeroIds told files
        → EndsShowRun told files (AsText names) (Some []) (Some text) failed 0 fault
        → Makes wanted nothing (only_text is_file name text) bytes contents
        → AreMerged told files wanted.header bytes }
{
    line_read_as_spelled();
}
