//! Laws that the tables of fields spell the bytes that PROTOCOL.krl lists. Each function does
//! nothing: its contract is the law.

ghost use Rattle.std.specs.Prelude.{◌≡◌, ◌↔◌, ℕ, List, [], slice_index_or};
ghost use Rattle.ssh_wire.specs.Rows.{BeginsWithTable};
ghost use Rattle.ssh_wire.specs.Wire.{number};
ghost use Rattle.krl_format.specs.Field.{magic_number};
ghost use Rattle.krl_format.specs.Krl.{SpellsFields, authority_fields, extension_fields};
ghost use Rattle.krl_format.specs.Krl.{header_fields, header_of, magic, signature_fields};
ghost use Rattle.krl_format.specs.Layout.{BeginsWithAuthority, BeginsWithHeader, HaveTheseTypes};
ghost use Rattle.krl_format.specs.Layout.{IsExtensionText, IsSignatureText};
ghost use Rattle.krl_format.specs.declared.header.Header.{Header};

/// The number that a list must begin with is that of the magic.
pub fn magic_is_these_bytes()
    ensures { number 8 magic_number ≡ magic }
{}

/// The table of the header spells the bytes of a header and nothing else, with its version, date
/// and comment in their places.
pub fn header_is_these_bytes()
    ensures spelled { (bytes rest : List ℕ) (values : List (List ℕ))
        → BeginsWithTable header_fields [] bytes values rest
        → BeginsWithHeader bytes (header_of values) rest }
    ensures spells { (bytes rest : List ℕ) (header : Header) → BeginsWithHeader bytes header rest
        → (values : List (List ℕ)) × BeginsWithTable header_fields [] bytes values rest
        × (header_of values ≡ header) }
{}

/// The table of a signature spells a key and a signature.
pub fn signature_is_these_bytes()
    ensures { (content : List ℕ)
        → SpellsFields signature_fields content ↔ IsSignatureText content }
{}

/// The table of an extension spells a name, a zero byte and contents.
pub fn extension_is_these_bytes()
    ensures { (content : List ℕ)
        → SpellsFields extension_fields content ↔ IsExtensionText content }
{}

/// The table at the beginning of a section of certificates spells the authority and a reserved
/// string.
pub fn authority_is_these_bytes()
    ensures spelled { (content rest : List ℕ) (values : List (List ℕ))
        → BeginsWithTable authority_fields [] content values rest
        → BeginsWithAuthority content (slice_index_or values 0 []) rest }
    ensures spells { (content authority rest : List ℕ) → BeginsWithAuthority content authority rest
        → (values : List (List ℕ)) × BeginsWithTable authority_fields [] content values rest
        × (slice_index_or values 0 [] ≡ authority) }
{}

/// The rows of sections and subsections have these type bytes.
pub fn types_are_these_bytes()
    ensures { HaveTheseTypes }
{}
