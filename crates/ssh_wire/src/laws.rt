//! Laws about the spellings of fields and their readers (RFC 4251 section 5), each as the contract
//! of a function that does nothing. The reads of a `Cursor` return what the readers named here
//! give, and the `put` functions append the spellings named here.

ghost use Rattle.std.specs.Prelude.{◌≡◌, ◌↔◌, ◌<◌, ◌+◌, ◌*◌, ◌^◌, ℕ, List, [], ◌∷◌, length};
ghost use Rattle.std.specs.Prelude.{Err, Ok, take};
ghost use Rattle.ssh_wire.specs.Laws.{HasMpint, IsShortWhereCut, ReadsJust};
ghost use Rattle.ssh_wire.specs.Reading.{mpint_at, number_at, string_at};
ghost use Rattle.ssh_wire.specs.Rows.{Fails, BeginsWithTable, Row, table_at};
ghost use Rattle.ssh_wire.specs.declared.fault.WireFault.{WireFault};
ghost use Rattle.ssh_wire.specs.declared.fault.WireFault.TheVariants.{Short};
ghost use Rattle.ssh_wire.specs.Wire.{IsBytes, IsMagnitude, IsMpint, complement, mpint, number};
ghost use Rattle.ssh_wire.specs.Wire.{number_of, string};

/// A number of k bytes, such as a `byte`, a `uint32` or a `uint64`, is read exactly where it is
/// spelled. So what `put_u32` and `put_u64` write is read back, whatever follows it, and what is
/// read is what they write.
pub fn number_is_read_back()
    ensures { (k : ℕ) → ReadsJust (number_at k) (number k) (λ n. n < 256 ^ k) }
{}

/// The spelling of a number of one byte is that byte. So what `put_byte` writes is read back, and
/// what is read is what it writes.
pub fn byte_is_its_spelling()
    ensures { (n : ℕ) → n < 256 → number 1 n ≡ n ∷ [] }
{}

/// A `string` is read exactly where it is spelled. So what `put_string` writes is read back,
/// whatever follows it, and what is read is what it writes.
pub fn string_is_read_back()
    ensures { ReadsJust string_at string (λ text. length text < 2 ^ 32) }
{}

/// An `mpint` that is not negative is read exactly where its magnitude is spelled. So what
/// `put_mpint` writes is read back, whatever follows it, and what is read is what it writes.
pub fn mpint_is_read_back()
    ensures { ReadsJust mpint_at mpint
        (λ magnitude. IsMagnitude magnitude × (length (complement magnitude) < 2 ^ 32)) }
{}

/// The spelling of a magnitude is the one shortest spelling of its number.
pub fn mpint_is_shortest()
    ensures { (text magnitude : List ℕ) → IsBytes text → IsBytes magnitude → IsMagnitude magnitude
        → length (complement magnitude) < 2 ^ 32
        → IsMpint text (number_of magnitude) ↔ (text ≡ mpint magnitude) }
{}

/// Each shortest spelling of a number is the spelling of a magnitude. So a number has one shortest
/// spelling.
pub fn mpint_has_magnitude()
    ensures { (text : List ℕ) (n : ℕ) → IsBytes text → IsMpint text n → HasMpint text n }
{}

/// The number of a list of bytes, the highest first. The weight of the first byte is the number of
/// values of the bytes after it.
pub fn number_by_bytes()
    ensures none { number_of [] ≡ 0 }
    ensures more { (byte : ℕ) (bytes : List ℕ)
        → number_of (byte ∷ bytes) ≡ byte * 256 ^ length bytes + number_of bytes }
{}

/// A number that is truncated anywhere is `Short`.
pub fn cut_number_is_short()
    ensures { (k n : ℕ) → IsShortWhereCut (number_at k) (number k n) }
{}

/// A string that is truncated anywhere is `Short`.
pub fn cut_string_is_short()
    ensures { (text : List ℕ) → length text < 2 ^ 32 → IsShortWhereCut string_at (string text) }
{}

/// A multiple precision integer that is truncated anywhere is `Short`.
pub fn cut_mpint_is_short()
    ensures { (magnitude : List ℕ) → length (complement magnitude) < 2 ^ 32
        → IsShortWhereCut mpint_at (mpint magnitude) }
{}

/// The values of a table are read exactly where it is spelled, whatever the type of its faults is.
/// Otherwise the first fault is reported, and there is one.
pub fn table_is_read_back<F>()
    ensures read { (unread : WireFault → F) (rows : List (Row F)) (before values : List (List ℕ))
        (bytes rest : List ℕ) → IsBytes bytes
        → (table_at unread rows before bytes ≡ Ok (values, rest))
        ↔ BeginsWithTable rows before bytes values rest }
    ensures refused { (unread : WireFault → F) (rows : List (Row F)) (before : List (List ℕ))
        (bytes : List ℕ) (fault : F) → IsBytes bytes
        → (table_at unread rows before bytes ≡ Err fault)
        ↔ Fails unread rows before bytes fault }
    ensures one { (unread : WireFault → F) (rows : List (Row F)) (before : List (List ℕ))
        (bytes : List ℕ) (a b : F) → Fails unread rows before bytes a
        → Fails unread rows before bytes b → a ≡ b }
    ensures none { (unread : WireFault → F) (rows : List (Row F)) (before values : List (List ℕ))
        (bytes rest : List ℕ) (fault : F) → BeginsWithTable rows before bytes values rest
        → Fails unread rows before bytes fault → ⊥ }
{}

/// A table that is truncated anywhere has the fault of a part that is `Short`.
pub fn cut_table_is_short<F>()
    ensures { (unread : WireFault → F) (rows : List (Row F)) (before values : List (List ℕ))
        (bytes : List ℕ) (n : ℕ) → BeginsWithTable rows before bytes values [] → n < length bytes
        → Fails unread rows before (take n bytes) (unread Short) }
{}
