//! Laws that hold for every text, each the contract of a function that does nothing. `read_line`,
//! `parse_fingerprint` and `read_private` return the same as the readers named here.

ghost use Rattle.std.specs.Prelude.{◌≡◌, ◌+◌, ◌*◌, ◌<◌, ◌≤◌, ◌↔◌, ℕ, List, Err, Ok, Some, length};
ghost use Rattle.sha2.specs.Sha256.{sha256};
ghost use Rattle.key_text.specs.Blanks.{IsWord};
ghost use Rattle.key_text.specs.Container.{IsContainer, IsPrivateFault};
ghost use Rattle.key_text.specs.ContainerReading.{private_at};
ghost use Rattle.key_text.specs.FingerprintReading.{IsFingerprint, IsFingerprintFault};
ghost use Rattle.key_text.specs.FingerprintReading.{fingerprint_at};
ghost use Rattle.key_text.specs.Fingerprints.{fingerprint_text};
ghost use Rattle.key_text.specs.KeyLine.{IsHostLine, IsKeyLine, base64};
ghost use Rattle.key_text.specs.LineFaults.{IsFirstLineFault};
ghost use Rattle.key_text.specs.LineReading.{KeyLine, content, host_line_at, line_at};
ghost use Rattle.key_text.specs.Marker.{IsMarkedLine, marked_line_at, marker_of};
ghost use Rattle.key_text.specs.declared.marker.Marker.{Marker as MarkerOf};
ghost use Rattle.key_text.specs.declared.fingerprint_fault.FingerprintFault.{FingerprintFault};
ghost use Rattle.key_text.specs.declared.hash.Hash.TheVariants.{Sha256};
ghost use Rattle.key_text.specs.declared.line_fault.LineFault.{LineFault};
ghost use Rattle.key_text.specs.declared.private_fault.PrivateFault.{PrivateFault};
ghost use Rattle.ssh_wire.specs.Wire.{IsBytes};

/// Reading returns the contents of a key line exactly if the text is one.
pub fn line_read_where_spelled()
    ensures read { (text word blob comment : List ℕ) → IsKeyLine text word blob comment
        → line_at text ≡ Ok (content word blob comment) }
    ensures spelled { (text : List ℕ) (line : KeyLine) → IsBytes text → line_at text ≡ Ok line
        → IsKeyLine text line.word line.blob line.comment }
{}

/// Reading returns the parts of each line of known hosts, and no other line has any.
pub fn host_line_read_where_spelled()
    ensures read { (text word blob comment : List ℕ) → IsHostLine text word blob comment
        → host_line_at text ≡ Ok (content word blob comment) }
    ensures spelled { (text : List ℕ) (line : KeyLine) → IsBytes text
        → host_line_at text ≡ Ok line → IsHostLine text line.word line.blob line.comment }
{}

/// A line with a marker is read as the line of known hosts after it, and its marker is found.
pub fn marked_line_is_read()
    ensures marker { (text : List ℕ) (marker : MarkerOf) (word blob comment : List ℕ)
        → IsMarkedLine text marker word blob comment → marker_of text ≡ Some marker }
    ensures read { (text : List ℕ) (marker : MarkerOf) (word blob comment : List ℕ)
        → IsMarkedLine text marker word blob comment
        → marked_line_at text ≡ Ok (content word blob comment) }
{}

/// The base64 of a key is always a word, so every key has a key line, whatever its bytes are.
pub fn base64_is_word()
    ensures { (blob : List ℕ) → 0 < length blob → IsWord (base64 blob) }
{}

/// A key line has room for its type word, a blank and the base64 of its key.
pub fn line_has_room()
    ensures { (text word blob comment : List ℕ) → IsKeyLine text word blob comment
        → 4 * length blob + 24 ≤ 3 * length text }
{}

/// Reading reports a fault exactly if it is the first fault of the text.
pub fn line_refused_by_first_fault()
    ensures { (text : List ℕ) (fault : LineFault) → IsBytes text
        → (line_at text ≡ Err fault) ↔ IsFirstLineFault text fault }
{}

/// A text has at most one first fault, and a key line has none.
pub fn one_first_line_fault()
    ensures one { (text : List ℕ) (a b : LineFault) → IsBytes text → IsFirstLineFault text a
        → IsFirstLineFault text b → a ≡ b }
    ensures none { (text word blob comment : List ℕ) (fault : LineFault) → IsBytes text
        → IsKeyLine text word blob comment → IsFirstLineFault text fault → ⊥ }
{}

/// Reading a printed fingerprint returns a digest exactly if the text is its fingerprint.
pub fn fingerprint_read_where_spelled()
    ensures { (text digest : List ℕ) → IsBytes text
        → (fingerprint_at text ≡ Ok digest) ↔ IsFingerprint text digest }
{}

/// Reading reports a fault exactly if it is the first fault of the text as a fingerprint.
pub fn fingerprint_refused_by_first_fault()
    ensures { (text : List ℕ) (fault : FingerprintFault) → IsBytes text
        → (fingerprint_at text ≡ Err fault) ↔ IsFingerprintFault text fault }
{}

/// A text has at most one first fault as a fingerprint, and a fingerprint has none.
pub fn one_fingerprint_fault()
    ensures one { (text : List ℕ) (a b : FingerprintFault) → IsBytes text
        → IsFingerprintFault text a → IsFingerprintFault text b → a ≡ b }
    ensures none { (text digest : List ℕ) (fault : FingerprintFault) → IsBytes text
        → IsFingerprint text digest → IsFingerprintFault text fault → ⊥ }
{}

/// The printed SHA-256 fingerprint of any bytes names their SHA-256. So `parse_fingerprint` reads
/// back what `fingerprint` prints.
pub fn fingerprint_names_its_digest()
    ensures { (bytes : List ℕ) → IsFingerprint (fingerprint_text Sha256 bytes) (sha256 bytes) }
{}

/// Reading returns a public blob and a comment exactly if the text is their container.
pub fn private_read_where_spelled()
    ensures { (text blob comment : List ℕ) → IsBytes text
        → (private_at text ≡ Ok (record { blob = blob; comment = comment }))
        ↔ IsContainer text blob comment }
{}

/// A container has room for its first line and the base64 of its key.
pub fn container_has_room()
    ensures { (text blob comment : List ℕ) → IsContainer text blob comment
        → 4 * length blob + 24 ≤ 3 * length text }
{}

/// Reading reports a fault exactly if it is the first fault of the text as a container.
pub fn private_refused_by_first_fault()
    ensures { (text : List ℕ) (fault : PrivateFault) → IsBytes text
        → (private_at text ≡ Err fault) ↔ IsPrivateFault text fault }
{}

/// A text has at most one first fault as a container, and a container has none.
pub fn one_private_fault()
    ensures one { (text : List ℕ) (a b : PrivateFault) → IsBytes text
        → IsPrivateFault text a → IsPrivateFault text b → a ≡ b }
    ensures none { (text blob comment : List ℕ) (fault : PrivateFault) → IsBytes text
        → IsContainer text blob comment → IsPrivateFault text fault → ⊥ }
{}
