//! The directives of specification files (ssh-keygen(1), KEY REVOCATION LISTS).

ghost use Rattle.std.specs.Prelude.{◌≡◌, MatchOption, None, Some};
ghost use Rattle.krl_spec.specs.Directive.{directive_named, is_named, name_of, order, order_in};

use crate::blanks::position_of;
use key_text::after_blanks;

const DIRECTIVES: [Directive; 6] = [
    Directive::Serial,
    Directive::Id,
    Directive::Key,
    Directive::Sha1,
    Directive::Sha256,
    Directive::Hash,
];

/// The word at the beginning of a line, before a colon.
#[derive(Clone, Copy)]
pub enum Directive {
    /// A serial, or a range of them, under the current authority.
    Serial,
    /// A key ID under the current authority.
    Id,
    /// A key, given by its line.
    Key,
    /// A key, given by its line and revoked by its SHA-1.
    Sha1,
    /// A key, given by its line and revoked by its SHA-256.
    Sha256,
    /// A key, given by its SHA-256 fingerprint.
    Hash,
}

impl Directive {
    /// The directive's name, in lower case.
    pub fn name(self) -> &'static str
        ensures { result.now ≡ name_of self }
    {
        match self {
            Directive::Serial => "serial",
            Directive::Id => "id",
            Directive::Key => "key",
            Directive::Sha1 => "sha1",
            Directive::Sha256 => "sha256",
            Directive::Hash => "hash",
        }
    }

    /// The directive with this name, in upper or lower case.
    #[tactic(auto, unfolding(crate::specs::Directive::directive_named))]
    pub fn named(name: &[u8]) -> Option<Directive>
        ensures { result ≡ directive_named name.now }
    {
        DIRECTIVES
            .iter()
            .copied()
            .find(|directive| directive.is_named(name))
    }

    // Whether the directive has this name, in upper or lower case.
    fn is_named(self, name: &[u8]) -> bool
        ensures { result ≡ is_named self name.now }
    {
        name.eq_ignore_ascii_case(self.name().as_bytes())
    }
}

/// The directive whose name is before the line's first colon, and its argument: what is after the
/// colon and blanks.
#[tactic(auto, unfolding(crate::specs::Directive::order_in))]
pub fn order_in(line: &[u8]) -> Option<(Directive, &[u8])>
    ensures { MatchOption result (order_in line.now ≡ None)
        (λ found. order_in line.now ≡ Some (order found.1.now found.0)) }
{
    let colon = position_of(line, b':');
    if colon == line.len() {
        return None;
    }
    let directive = Directive::named(&line[..colon])?;
    Some((directive, after_blanks(&line[colon + 1..])))
}
