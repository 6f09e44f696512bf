//! Laws about every instant and every certificate, each as the contract of a function that does
//! nothing. `time_text` and `list_cert` write the text of an instant and the listing.

ghost use Rattle.std.specs.Prelude.{◌≡◌, ◌↔◌, ℕ, List};
ghost use Rattle.cert_listing.specs.Listing.{IsListing, listing_of};
ghost use Rattle.cert_listing.specs.Time.{IsTimeText, instant_text};
ghost use Rattle.ssh_cert.specs.Cert.{Cert};
ghost use Rattle.key_text.specs.declared.hash.Hash.{Hash};

/// A text is that of an instant exactly where it is its date and its time of day in UTC, or from
/// the year 9999 on its number.
pub fn text_of_instant()
    ensures { (seconds : ℕ) (text : List ℕ)
        → (text ≡ instant_text seconds) ↔ IsTimeText seconds text }
{}

/// A text lists a certificate at a moment exactly where it is its listing, with such texts of the
/// instants.
pub fn one_listing()
    ensures { (hash : Hash) (certificate : Cert) (moment : ℕ) (text : List ℕ)
        → (text ≡ listing_of hash certificate moment) ↔ IsListing hash certificate moment text }
{}
