//! Laws of spellings and first faults. Each function does nothing: its
//! contract is the law.

ghost use Rattle.std.specs.Prelude.{◌≡◌, ◌≤◌, ◌⊎◌, ◌++◌, ℕ, List, None, Some, Option, length};
ghost use Rattle.krl_types.specs.declared.krl_fault.KrlFault.TheVariants.{EndsEarly};
ghost use Rattle.serial_set.specs.BitRuns.{big_endian};
ghost use Rattle.ssh_wire.specs.Wire.{IsBytes, number_of};
ghost use Rattle.krl_format.specs.declared.header.Header.{Header};
ghost use Rattle.krl_format.specs.Krl.{SpelledSection, Spells};
ghost use Rattle.krl_types.specs.declared.krl_fault.KrlFault.{KrlFault};
ghost use Rattle.krl_format.specs.Front.{State, IsFirstKrlFault, IsFront, limit};
ghost use Rattle.krl_format.specs.Memory.{MayLackMemory};

/// If a text has two fronts, one is the beginning of the other.
pub fn one_front_begins_the_other()
    ensures { (text : List ℕ) (one other : List (List ℕ)) (state state' : State)
        (rest rest' : List ℕ)
        → IsFront text one state rest → IsFront text other state' rest'
        → ((more : List (List ℕ)) × (other ≡ one ++ more))
        ⊎ ((more : List (List ℕ)) × (one ≡ other ++ more)) }
{}

/// A text has at most one first fault.
pub fn one_first_fault()
    ensures { (text : List ℕ) (fault fault' : Option KrlFault)
        → IsFirstKrlFault text fault → IsFirstKrlFault text fault' → fault ≡ fault' }
{}

/// Before the first field that may need memory there are the first six fields of a list, which have
/// 40 bytes.
pub fn first_fields_have_forty_bytes()
    ensures { (text : List ℕ) → MayLackMemory text → 40 ≤ length text }
{}

/// Each text has a first fault, or is reported to have none.
pub fn each_text_is_judged()
    ensures { (text : List ℕ) → (fault : Option KrlFault) × IsFirstKrlFault text fault }
{}

/// A text of bytes has no fault exactly if a header and sections spell it within the limit.
pub fn no_fault_where_spelled()
    ensures spelled { (text : List ℕ) (header : Header) (sections : List SpelledSection)
        → IsBytes text → Spells text header sections → length text ≤ limit
        → IsFirstKrlFault text None }
    ensures unfaulted { (text : List ℕ) → IsBytes text → IsFirstKrlFault text None
        → (length text ≤ limit)
        × ((header : Header) × ((sections : List SpelledSection) × Spells text header sections)) }
{}

/// A prefix of a spelled list within the limit is spelled too, so that it has no fault, or it ends
/// early.
pub fn a_cut_ends_early()
    ensures { (text prefix more : List ℕ) (header : Header) (sections : List SpelledSection)
        → IsBytes text → Spells text header sections → length text ≤ limit
        → text ≡ prefix ++ more
        → IsFirstKrlFault prefix None ⊎ IsFirstKrlFault prefix (Some EndsEarly) }
{}

/// A text is the spelling of at most one header and one list of sections.
pub fn one_spelling()
    ensures { (text : List ℕ) (header other : Header) (sections others : List SpelledSection)
        → Spells text header sections → Spells text other others
        → (header ≡ other) × (sections ≡ others) }
{}

/// The bytes of a bitmap have the same number by the definition of `serial_set` as by that of the
/// wire format.
pub fn one_number_of_a_bitmap()
    ensures { (bytes : List ℕ) → big_endian bytes ≡ number_of bytes }
{}
