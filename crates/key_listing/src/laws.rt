//! A law about what is listed. The function does nothing: its contract is the law.

ghost use Rattle.std.specs.Prelude.{◌≡◌, ℕ, true, List, Some};
ghost use Rattle.ssh_wire.specs.Wire.{IsBytes};
ghost use Rattle.ssh_cert.specs.Cert.{Cert, IsCertificate};
ghost use Rattle.key_text.specs.declared.hash.Hash.{Hash};
ghost use Rattle.key_text.specs.KeyFile.{has_key};
ghost use Rattle.key_text.specs.KeyLine.{IsKeyLine};
ghost use Rattle.key_text.specs.LineReading.{KeyLine};
ghost use Rattle.key_listing.specs.Listing.{certify, listed_certificate};
ghost use Rattle.run_output.specs.declared.answer.Answer.{Answer};
ghost use Rattle.run_output.specs.Run.{Answered, item_of};

use run_output::laws::items_by_what_is_spelled;
use ssh_cert::laws::read_where_spelled;

/// In a run over certificates, the certificate of a line is listed after the file's name and the
/// line's number, and nothing else is answered.
pub fn certificates_by_what_is_spelled()
    ensures listed { (hash : Hash) (moment : ℕ) (name : List ℕ) (number : ℕ)
        (text word blob comment : List ℕ) (certificate : Cert)
        → has_key text ≡ true → IsKeyLine text word blob comment → IsCertificate blob certificate
        → item_of (certify hash moment) name number text
        ≡ Some (Answered name (listed_certificate hash moment name number certificate)) }
    ensures only { (hash : Hash) (moment : ℕ) (name : List ℕ) (number : ℕ) (text : List ℕ)
        (other : List ℕ) (reply : Answer) → IsBytes text
        → item_of (certify hash moment) name number text ≡ Some (Answered other reply)
        → (line : KeyLine) × (certificate : Cert)
        × IsKeyLine text line.word line.blob line.comment × IsCertificate line.blob certificate
        × (reply ≡ listed_certificate hash moment name number certificate) }
{
    items_by_what_is_spelled();
    read_where_spelled();
}
