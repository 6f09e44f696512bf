//! Laws of an audit. Each function does nothing: its contract is the law.

ghost use Rattle.std.specs.Prelude.{◌≡◌, ◌⊎◌, ℕ, List, Option, None, Contains};
ghost use Rattle.krl_types.specs.Entry.{Entry};
ghost use Rattle.krl_entries.specs.Revoked.{Revoked};
ghost use Rattle.json_lines.specs.ReadBack.{IsReadBack};
ghost use Rattle.krl_audit.specs.Audit.{answers_but, kind_of};
ghost use Rattle.krl_audit.specs.Done.{AreCounts, done_object};
ghost use Rattle.krl_audit.specs.Scan.{IsAtPlace, scanned_lines};
ghost use Rattle.audit_lines.specs.Outcome.{Empty, Found, Key, Placed};
ghost use Rattle.text_index.specs.NamingLines.{Register};
ghost use Rattle.krl_audit.specs.declared.counts.Counts.{Counts as CountsOf};
ghost use Rattle.audit_text.specs.declared.line_kind.LineKind.TheVariants as kinds;
ghost use Rattle.krl_audit.specs.declared.done.FileCounts.{FileCounts as FileCountsOf};
ghost use Rattle.krl_audit.specs.declared.done.ListFacts.{ListFacts as ListFactsOf};

use json_lines::laws::lines_are_read_back;
use key_places::laws::places_are_those_of_the_line;

/// A key of a line without a marker is reported as revoked exactly if the entries revoke it.
pub fn revoked_where_entries_revoke()
    ensures revoked { (entries : List Entry) (texts : Option Register) (found : Found)
        → found.marker ≡ None → Revoked entries found.asked
        → kind_of (answers_but None entries texts) (Key found) ≡ kinds.Revoked }
    ensures fine { (entries : List Entry) (texts : Option Register) (found : Found)
        → found.marker ≡ None → (Revoked entries found.asked → ⊥)
        → kind_of (answers_but None entries texts) (Key found) ≡ kinds.Fine }
{}

/// The last object of an audit is one line, which a JSON reader reads as exactly that object.
pub fn last_object_is_read_back()
    ensures { (label : Option (List ℕ)) (files : FileCountsOf) (counts : CountsOf)
        (list : ListFactsOf) → AreCounts files counts
        → IsReadBack (done_object label files counts list) }
{
    lines_are_read_back();
}

/// A scan of a text asks about the key of each place of each of its lines, and finds nothing else.
pub fn each_key_of_a_text_is_found()
    ensures found { (text : List ℕ) (placed : Placed) → IsAtPlace text placed
        → Contains (scanned_lines text) placed }
    ensures only { (text : List ℕ) (placed : Placed) → Contains (scanned_lines text) placed
        → IsAtPlace text placed ⊎ (placed.outcome ≡ Empty) }
{
    places_are_those_of_the_line();
}
