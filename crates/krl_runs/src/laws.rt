//! Laws of the lines that runs print. Each function does nothing: its contract is the law.

ghost use Rattle.std.specs.Prelude.{◌≡◌, ◌⊎◌, ℕ, false, List, Result, Ok, Err, Option};
ghost use Rattle.krl_types.specs.Entry.{Entry};
ghost use Rattle.krl_entries.specs.Reasons.{is_revoked};
ghost use Rattle.krl_types.specs.declared.krl_fault.KrlFault.{KrlFault};
ghost use Rattle.krl_types.specs.declared.krl_fault.KrlFault.TheVariants.{NoMemory};
ghost use Rattle.krl_core.specs.Reading.{IsReadAs};
ghost use Rattle.krl_runs.specs.Contents.{Known, dump_text};
ghost use Rattle.krl_runs.specs.Query.{HasEntries, IsHeld, IsRead, ask, ask_by, asked_run_of};
ghost use Rattle.krl_runs.specs.Query.{query_run_of};
ghost use Rattle.run_faults.specs.Keys.{Named};
ghost use Rattle.run_output.specs.Run.{before, files_items, outcome_of};

use krl_entries::laws::entries_decide_what_is_held;
use krl_format::laws::{one_first_fault, one_spelling};

/// If a list's contents are requested, their text comes before all lines about files; otherwise
/// nothing is printed about the list.
pub fn contents_stand_first()
    ensures asked { (name : List ℕ) (known : Known) (files : List Named)
        → outcome_of (query_run_of name (Ok known) files)
        ≡ before (record { text = dump_text known; revoked = false })
        (outcome_of (files_items (ask known.contents) files)) }
    ensures unasked { (name : List ℕ) (entries : List Entry) (files : List Named)
        → outcome_of (asked_run_of name (Ok entries) files)
        ≡ outcome_of (files_items (ask_by (is_revoked entries)) files) }
{}

/// A stored list and a streamed list give the same lines for each file.
pub fn stored_or_streamed()
    ensures { (text : List ℕ) (known : Known) (entries : List Entry) (files : List Named)
        → IsHeld text known → HasEntries text entries
        → files_items (ask known.contents) files ≡ files_items (ask_by (is_revoked entries)) files }
{
    one_spelling();
}

/// If its reader does not fail, a text has one reading, unless an allocation fails: its known
/// contents are unique, or its fault is.
pub fn one_reading()
    ensures { (text : List ℕ) (one other : Result Known KrlFault) (left later : Option (List ℕ))
        → IsRead text one false left → IsRead text other false later
        → (one ≡ other) ⊎ ((one ≡ Err NoMemory) ⊎ (other ≡ Err NoMemory)) }
{
    one_spelling();
    one_first_fault();
    entries_decide_what_is_held();
}

/// A list that is streamed has one reading if its reader does not fail: its entries are unique, or
/// its fault is, unless an allocation fails.
pub fn one_asked_reading()
    ensures { (text : List ℕ) (one other : Result (List Entry) KrlFault)
        (left later : Option (List ℕ))
        → IsReadAs HasEntries text one false left → IsReadAs HasEntries text other false later
        → (one ≡ other) ⊎ ((one ≡ Err NoMemory) ⊎ (other ≡ Err NoMemory)) }
{
    one_spelling();
    one_first_fault();
}
