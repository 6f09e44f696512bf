//! Laws about the lists that are written. Each function does nothing: its contract is the law.

ghost use Rattle.std.specs.Prelude.{◌≡◌, ◌≤◌, ◌<◌, ◌^◌, ◌⊎◌, ℕ, Bool, true, List, Option, None};
ghost use Rattle.std.specs.Prelude.{length};
ghost use Rattle.ssh_wire.specs.Wire.{IsBytes};
ghost use Rattle.krl_format.specs.Front.{IsFirstKrlFault, limit};
ghost use Rattle.krl_plan.specs.declared.group.Group.{Group};
ghost use Rattle.krl_entries.specs.Revocations.{Revocations, IsOrderly, Means};
ghost use Rattle.krl_format.specs.declared.header.Header.{Header};
ghost use Rattle.krl_format.specs.Krl.{SpelledSection, Spells};
ghost use Rattle.krl_writer.specs.KrlText.{EachPlan, IsKrlText, sections_of, text_of};
ghost use Rattle.krl_plan.specs.Plan.{IsPlan};
ghost use Rattle.krl_types.specs.declared.krl_fault.KrlFault.{KrlFault};
ghost use Rattle.krl_types.specs.declared.krl_fault.KrlFault.TheVariants.{NoMemory, Read};
ghost use Rattle.krl_format.specs.Entries.{entries_of};
ghost use Rattle.krl_format.specs.Faults.{Says};
ghost use Rattle.krl_writer.specs.Size.{text_size};

/// The text of a list within the limit is spelled as a list, whatever the plans for its serials.
pub fn text_is_spelled()
    ensures { (header : Header) (plans : List (List Group)) (r : Revocations)
        → header.version < 2 ^ 64 → header.date < 2 ^ 64 → IsOrderly r
        → EachPlan IsPlan plans r.sections → length (text_of header plans r) ≤ limit
        → Spells (text_of header plans r) header (sections_of plans r) }
{}

/// The sections of a written list name exactly the stored revocations, whatever the plans for the
/// serials.
pub fn sections_mean_what_is_held()
    ensures { (plans : List (List Group)) (r : Revocations) → IsOrderly r
        → EachPlan IsPlan plans r.sections → Means r (entries_of (sections_of plans r)) }
{}

/// The list that is written is spelled as a list if it is within the limit, and its sections name
/// exactly the stored revocations.
pub fn written_list_names_what_is_held()
    ensures { (header : Header) (r : Revocations) (text : List ℕ) → IsKrlText header r text
        → length text ≤ limit → header.version < 2 ^ 64 → header.date < 2 ^ 64 → IsOrderly r
        → (sections : List SpelledSection) × (Spells text header sections
        × Means r (entries_of sections)) }
{}

/// Reading a written list gives its header and exactly the stored revocations.
pub fn written_list_is_read_back()
    ensures { (header read : Header) (r held : Revocations) (text : List ℕ)
        → IsKrlText header r text
        → length text ≤ limit → header.version < 2 ^ 64 → header.date < 2 ^ 64 → IsOrderly r
        → (sections : List SpelledSection) → Spells text read sections
        → Means held (entries_of sections) → (read ≡ header) × (held ≡ r) }
{}

/// A written list has no fault. If it cannot be read, the fault is that an allocation or the reader
/// failed.
pub fn written_list_has_no_fault()
    ensures unfaulted { (header : Header) (r : Revocations) (text : List ℕ)
        → IsKrlText header r text → length text ≤ limit
        → header.version < 2 ^ 64 → header.date < 2 ^ 64 → IsOrderly r
        → IsBytes text → IsFirstKrlFault text None }
    ensures refused { (header : Header) (r : Revocations) (text : List ℕ)
        → IsKrlText header r text → length text ≤ limit
        → header.version < 2 ^ 64 → header.date < 2 ^ 64 → IsOrderly r
        → IsBytes text → (fault : KrlFault) (failed : Bool) (left : Option (List ℕ))
        → Says fault text failed left
        → (fault ≡ NoMemory) ⊎ ((fault ≡ Read) × (failed ≡ true)) }
{}

/// The exact length of a written list: its parts and the cost of its plans.
pub fn text_has_its_size()
    ensures { (header : Header) (plans : List (List Group)) (r : Revocations) → IsOrderly r
        → EachPlan IsPlan plans r.sections
        → length (text_of header plans r) ≡ text_size header plans r }
{}
