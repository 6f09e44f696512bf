//! Laws about every key and every list of bytes, each as the contract of a function that does
//! nothing. `read_key` returns what the reader named here gives, and `plain_blob` the blob.

ghost use Rattle.std.specs.Prelude.{◌≡◌, ◌≢◌, ◌*◌, ◌^◌, ◌<◌, ◌≤◌, ◌↔◌, ℕ, List, Err, Ok, length};
ghost use Rattle.std.specs.Prelude.{take};
ghost use Rattle.ssh_key.specs.FirstFault.{IsFieldsFault, IsFirstKeyFault};
ghost use Rattle.ssh_key.specs.Key.{BeginsWithFields, IsKey, IsPositive, PublicKey, blob_of};
ghost use Rattle.ssh_key.specs.KeyReading.{key_at, public_at};
ghost use Rattle.ssh_key.specs.Kind.{bit_count, certificate_name, fields_of, type_name};
ghost use Rattle.ssh_key.specs.Layout.{IsKeyText};
ghost use Rattle.ssh_key.specs.Value.{SameValues};
ghost use Rattle.ssh_key.specs.declared.fault.KeyFault.{KeyFault};
ghost use Rattle.ssh_key.specs.declared.kind.Kind.{Kind};
ghost use Rattle.ssh_key.specs.declared.fault.KeyFault.TheVariants.{Wire};
ghost use Rattle.ssh_wire.specs.Wire.{IsBytes, number_of};
ghost use Rattle.ssh_wire.specs.declared.fault.WireFault.TheVariants.{Short};

/// The tables of the kinds spell the bytes that the documents list, field by field, and nothing
/// else.
pub fn key_is_these_bytes()
    ensures { (blob : List ℕ) (key : PublicKey) → IsKey blob key ↔ IsKeyText blob key }
{}

/// No two kinds have the same type name, nor the same name for their certificates, and no name is
/// both a key's and a certificate's.
pub fn names_differ()
    ensures plain { (a b : Kind) → type_name a ≡ type_name b → a ≡ b }
    ensures certified { (a b : Kind) → certificate_name a ≡ certificate_name b → a ≡ b }
    ensures apart { (a b : Kind) → type_name a ≢ certificate_name b }
{}

/// Reading gives a key exactly where the bytes are its blob.
pub fn read_where_spelled()
    ensures { (blob : List ℕ) (key : PublicKey) → IsBytes blob → (key_at blob ≡ Ok key)
        ↔ IsKey blob key }
{}

/// Reading meets a fault exactly where it is the first fault of the bytes.
pub fn refused_by_first_fault()
    ensures { (blob : List ℕ) (fault : KeyFault) → IsBytes blob
        → (key_at blob ≡ Err fault) ↔ IsFirstKeyFault blob fault }
{}

/// Bytes have at most one first fault, and a blob of a key has none.
pub fn one_first_fault()
    ensures one { (blob : List ℕ) (a b : KeyFault) → IsFirstKeyFault blob a → IsFirstKeyFault blob b
        → a ≡ b }
    ensures none { (blob : List ℕ) (key : PublicKey) (fault : KeyFault) → IsKey blob key
        → IsFirstKeyFault blob fault → ⊥ }
{}

/// Reading public fields gives a key and the rest exactly where the bytes are its public fields and
/// then the rest.
pub fn fields_read_where_spelled()
    ensures { (kind : Kind) (bytes rest : List ℕ) (key : PublicKey) → IsBytes bytes
        → (public_at kind bytes ≡ Ok (key, rest))
        ↔ ((key.kind ≡ kind) × BeginsWithFields bytes key rest) }
{}

/// Reading public fields meets a fault exactly where it is the first fault of those fields.
pub fn fields_refused_by_first_fault()
    ensures { (kind : Kind) (bytes : List ℕ) (fault : KeyFault) → IsBytes bytes
        → (public_at kind bytes ≡ Err fault) ↔ IsFieldsFault kind bytes fault }
{}

/// Public fields have at most one first fault, and those of a key have none.
pub fn one_fields_fault()
    ensures one { (kind : Kind) (bytes : List ℕ) (a b : KeyFault)
        → IsFieldsFault kind bytes a → IsFieldsFault kind bytes b → a ≡ b }
    ensures none { (key : PublicKey) (bytes rest : List ℕ) (fault : KeyFault)
        → BeginsWithFields bytes key rest → IsFieldsFault key.kind bytes fault → ⊥ }
{}

/// A blob that is truncated, at whatever byte, is reported as such: its fault is that of a field
/// that ends too early, and no other. The same holds for public fields alone.
pub fn cut_key_is_short()
    ensures blob { (blob : List ℕ) (key : PublicKey) (n : ℕ) → IsKey blob key → n < length blob
        → IsFirstKeyFault (take n blob) (Wire Short) }
    ensures fields { (key : PublicKey) (n : ℕ) → IsKey (blob_of key) key → n < length key.fields
        → IsFieldsFault key.kind (take n key.fields) (Wire Short) }
{}

/// A blob is the blob of one key.
pub fn one_key()
    ensures { (blob : List ℕ) (a b : PublicKey) → IsKey blob a → IsKey blob b → a ≡ b }
{}

/// A key has one blob: if the kinds are equal, and so are the numbers and strings of the public
/// fields, the blobs are equal.
pub fn one_blob()
    ensures { (a b : List ℕ) (k l : PublicKey) → IsBytes a → IsBytes b
        → (p : IsKey a k) (q : IsKey b l)
        → k.kind ≡ l.kind → SameValues (fields_of k.kind) p.values q.values → a ≡ b }
{}

/// The size in bits is the smallest that holds the number.
pub fn bits_hold_number()
    ensures { (magnitude : List ℕ) → IsBytes magnitude → IsPositive magnitude
        → (number_of magnitude < 2 ^ bit_count magnitude)
        × (2 ^ bit_count magnitude ≤ 2 * number_of magnitude) }
{}

/// The blob that is made from a key is the one that it was read from, and is read as that key.
pub fn blob_read_back()
    ensures { (blob : List ℕ) (key : PublicKey) → IsKey blob key
        → (blob_of key ≡ blob) × (key_at (blob_of key) ≡ Ok key) }
{}
