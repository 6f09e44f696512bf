//! The names of the key types.

ghost use Rattle.std.specs.Prelude.{◌≡◌};
ghost use Rattle.key_text.specs.TypeName.{is_type_name};

use ssh_key::Kind;

/// Returns true if the word is the name of a key type, plain or of a certificate.
pub fn is_type_name(word: &[u8]) -> bool
    ensures { result ≡ is_type_name word.now }
{
    Kind::of_name(word).is_some() || Kind::of_cert_name(word).is_some()
}
