//! Laws about every file that names an authority, and every list that is made. Each function does
//! nothing: its contract is the law.

ghost use Rattle.std.specs.Prelude.{◌≡◌, ◌≤◌, ◌↔◌, ◌++◌, ℕ, List, Err, Ok, Option, Some, length};
ghost use Rattle.std.specs.Prelude.{true};
ghost use Rattle.krl_entries.specs.Revocations.{Revocations, held};
ghost use Rattle.run_faults.specs.Keys.{Named};
ghost use Rattle.krl_job.specs.declared.job.AuthorityOption.{AuthorityOption};
ghost use Rattle.krl_make.specs.declared.base.Base.{Base};
ghost use Rattle.krl_make.specs.FirstKey.{IsFirstKey, IsFirstKeyFault};
ghost use Rattle.krl_format.specs.Entries.{entries_of};
ghost use Rattle.krl_format.specs.Krl.{SpelledSection, Spells};
ghost use Rattle.krl_format.specs.declared.header.Header.{Header};
ghost use Rattle.krl_make.specs.Making.{HoldsMore, IsOldList, NamesSame, Parts, first_key_of};
ghost use Rattle.krl_make.specs.Making.{make_run_of, paid};
ghost use Rattle.krl_make.specs.Over.{RunsOver};
ghost use Rattle.krl_make.specs.declared.run.Wanted.{Wanted};
ghost use Rattle.krl_types.specs.Entry.{Entry};
ghost use Rattle.run_faults.specs.RunFault.{RunFault};
ghost use Rattle.ssh_wire.specs.Wire.{IsBytes};

use key_text::laws::{private_read_where_spelled, private_refused_by_first_fault};
use keyed_lines::laws::key_where_spelled;
use ssh_key::laws::blob_read_back;

/// Reading a file gives a key exactly if it is the file's first key, and a fault exactly if it is
/// the file's first fault.
pub fn first_key_where_spelled()
    ensures read { (name text blob : List ℕ) → IsBytes text
        → (first_key_of name text ≡ Ok blob) ↔ IsFirstKey text blob }
    ensures refused { (name text : List ℕ) (stop : RunFault) → IsBytes text
        → (first_key_of name text ≡ Err stop) ↔ IsFirstKeyFault name text stop }
{
    key_where_spelled();
    private_read_where_spelled();
    private_refused_by_first_fault();
    blob_read_back();
}

/// While a list is made, at most four intervals of serial numbers are stored for each byte of the
/// old list, and one for each line that gave an entry.
pub fn held_is_paid()
    ensures { (name text : List ℕ) (base : Base) (authority : AuthorityOption Named)
        (version : Option ℕ) (files : List Named) (moment : ℕ) (made : Parts)
        (contents : Revocations) → IsOldList text base
        → make_run_of name (Ok base) authority version files moment ≡ Ok made
        → HoldsMore made.old contents made.entries
        → held contents ≤ paid (length text) (length made.entries) }
{}

/// An update keeps what the old list names: the new list revokes exactly what the entries of the
/// old one and some more revoke.
pub fn update_keeps_the_old_list()
    ensures { (wanted : Wanted) (text bytes : List ℕ) (header : Header)
        (sections : List SpelledSection) → wanted.update ≡ true → Spells text header sections
        → RunsOver wanted (Some (Some text)) (Ok bytes)
        → (made : Header) × (added : List Entry)
        × NamesSame made bytes (entries_of sections ++ added) }
{}
